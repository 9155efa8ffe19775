// compile: from the bytes of a sheet and of its parameters to the table of the program that it means, or the number of
// a refusal. Time: reading takes one pass over the bytes, unknown names one pass over the nodes. The rest is done for
// each of ev events and for none, twice: a pass over the nodes for the names, and an order of bs behaviours, each
// choice looking at one set for each of them. In all bytes + 2 * (ev + 1) * (names + bs * bs), and the instructions
// written, at most 4096.

#![tactic(auto)]

ghost use Rattle.std.specs.Prelude.{◌≡◌, Err, replicate};
ghost use Rattle.draft_form.specs.Draft.{draft_length};
ghost use Rattle.back_compile.specs.Verdict.{compile_on};
ghost use Rattle.back_compile.specs.Number.{number_on};
ghost use Rattle.back_compile.specs.Compiled.{compiled};
ghost use Rattle.back_compile.specs.Judged.{JudgedAs, answer_of};
ghost use Rattle.back_compile.specs.declared.Turndown.TheVariants.{Refused};

use draft_form::{Draft, layout};
use format_layout::table;
use front_sheet::Counts;
use spec_language::limits;
use spec_language::refusals::Refusal;

// Why a sheet is turned down: for a circle, which its draft then shows, of so many events and behaviours; or by another
// refusal.
#[derive(Clone, Copy, PartialEq, Eq, Debug, Drop)]
pub enum Turndown {
    Circular(Counts),
    Refused(Refusal),
}

impl Turndown {
    // compile's number.
    pub fn number(self) -> u32
        ensures { result ≡ answer_of (Err self) }
    {
        match self {
            Turndown::Circular(_) => Refusal::Cycle.number(),
            Turndown::Refused(refusal) => refusal.number(),
        }
    }
}

impl From<Refusal> for Turndown {
    ghost from_gives = { λ r t. t ≡ Refused r };

    fn from(refusal: Refusal) -> Turndown {
        Turndown::Refused(refusal)
    }
}

// A sheet judged, all but the table, in the order of the refusals: 3, the reading, 11, 20, 12, 13. A draft of zeros
// becomes the sheet's, its parameters filled in. That is done before 11 and 20 are looked for: their values do not
// matter there.
pub fn judge_sheet(sheet: &[u8], params: &[u8], draft: &mut Draft) -> Result<Counts, Turndown>
    requires { draft.old ≡ replicate draft_length 0 }
    ensures { JudgedAs sheet.now params.now draft.new result }
{
    if sheet.len() > limits::SHEET_BYTES {
        return Err(Turndown::Refused(Refusal::LongSheet));
    }
    let counts = front_sheet::read_program(sheet, draft)?;
    let lacking = draft_params::lacks_param(draft, counts.nodes, params);
    draft_params::fill_draft(draft, counts.nodes, params);
    if !check_faults::names_known(draft, counts.nodes, counts.behaviours) {
        return Err(Turndown::Refused(Refusal::UnknownName));
    }
    if lacking {
        return Err(Turndown::Refused(Refusal::NoParameters));
    }
    if check_faults::has_cycle(draft, counts.events, counts.behaviours) {
        return Err(Turndown::Circular(counts));
    }
    if back_table::count_all(draft, counts.events, counts.behaviours) > limits::INSTRUCTIONS {
        return Err(Turndown::Refused(Refusal::Overlong));
    }
    Ok(counts)
}

// compile's number, as with a full table: the sheet judged, and no table made.
pub fn compile_number(sheet: &[u8], params: &[u8]) -> u32
    ensures { result ≡ number_on sheet.now params.now }
{
    let mut draft = [0u64; layout::LENGTH];
    match judge_sheet(sheet, params, &mut draft) {
        Ok(_) => 0,
        Err(turndown) => turndown.number(),
    }
}

// 1; then as the sheet is judged: 3, the reading, 11, 20, 12, 13; then the table, from its first byte on. 0, or the
// number of a refusal, which leaves the table as it was.
#[tactic(auto, using(crate::proofs::JudgeLaws::compile_short))]
pub fn compile_at(sheet: &[u8], params: &[u8], table: &mut [u8]) -> u32
    ensures { compiled result table.new ≡ compile_on sheet.now params.now table.old }
{
    if table.len() < table::BYTES {
        return Refusal::ShortTable.number();
    }
    let mut draft = [0u64; layout::LENGTH];
    match judge_sheet(sheet, params, &mut draft) {
        Ok(counts) => {
            back_table::write_table(&draft, counts.events, counts.behaviours, table);
            0
        }
        Err(turndown) => turndown.number(),
    }
}
