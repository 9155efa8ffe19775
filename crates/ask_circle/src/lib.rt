// compile's number for a sheet, and with 12 a shortest circle of its behaviours (02, M-108).

#![tactic(auto)]

ghost use Rattle.ask_circle.specs.Witness.{Witnessed};

use back_compile::Turndown;
use draft_form::layout;

// compile's number, as with a full table, and the list as it was; but with 12, its event times 256 (255 for none) and
// its length times 65,536, and the circle in the list's first bytes, where it has room for it.
pub fn circle_at(sheet: &[u8], params: &[u8], list: &mut [u8]) -> u64
    ensures { Witnessed sheet.now params.now list.old result list.new }
{
    let mut draft = [0u64; layout::LENGTH];
    match back_compile::judge_sheet(sheet, params, &mut draft) {
        Ok(_) => 0,
        Err(Turndown::Circular(counts)) => {
            check_shortest::list_circle(&draft, counts.events, counts.behaviours, list)
        }
        Err(Turndown::Refused(refusal)) => u64::from(refusal.number()),
    }
}
