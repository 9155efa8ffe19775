// Rows in the reader (02, M-110): which tags are due where a behaviour may stand, how many behaviours the field there
// makes, and the cells of a row after the first, which the draft (layout: draft_form, specs/Draft.antt) has as copies
// of the first.
// Time: 36 words for each cell.

#![tactic(auto)]

ghost use Rattle.std.specs.Prelude.{◌≡◌, ◌+◌, ◌<◌, ◌≤◌};
ghost use Rattle.front_rows.specs.Cells.{least_of, most_of, cells_at, entries_copied, cell_copied, row_copied};
ghost use Rattle.lib_base.specs.Words.{byte_values};
ghost use Rattle.spec_language.specs.Limits.{behaviour_limit, event_limit};

use draft_form::{Draft, layout};
use sheet_field::{sizes, tags};
use spec_language::limits;

const CELLS: usize = layout::CELLS as usize;

// The least tag due at the front of s: 06 if that stands there, else lo.
#[tactic(auto, using(lib_base::proofs::Pick::branches), unfolding(crate::specs::Cells::least_of))]
pub fn least_tag(s: &[u8], lo: u8) -> u8
    ensures { result ≡ least_of s.now lo }
{
    match s {
        [tags::ROW, ..] => tags::ROW,
        _ => lo,
    }
}

// The greatest: 06 if that stands there, else 03.
#[tactic(auto, using(lib_base::proofs::Pick::branches), unfolding(crate::specs::Cells::most_of))]
pub fn most_tag(s: &[u8]) -> u8
    ensures { result ≡ most_of s.now }
{
    match s {
        [tags::ROW, ..] => tags::ROW,
        _ => tags::ACTIVE,
    }
}

// How many behaviours the field at the front of s makes.
#[tactic(auto, using(lib_base::proofs::Pick::branches), unfolding(crate::specs::Cells::cells_at))]
pub fn cells_at(s: &[u8]) -> usize
    ensures value { result ≡ cells_at s.now }
    ensures upper_bound { result < byte_values }
{
    if sizes::BYTE_HEAD <= s.len() && s[0] == tags::ROW {
        return s[sizes::HEADER] as usize;
    }
    1
}

// The entries of behaviour i go to behaviour k too.
fn copy_entries(draft: &mut Draft, i: usize, k: usize)
    requires { (i < behaviour_limit) × (k < behaviour_limit) }
    ensures { draft.new ≡ entries_copied draft.old i k event_limit }
{
    let from = layout::HANDLERS + i * limits::EVENTS;
    draft.copy_within(
        from..from + limits::EVENTS,
        layout::HANDLERS + k * limits::EVENTS,
    );
}

// Behaviour k becomes a cell like behaviour i, at this place in its row: its entries, its start, who may see it.
#[tactic(auto, unfolding(crate::specs::Cells::cell_copied, crate::specs::Cells::viewer_copied, crate::specs::Cells::start_copied))]
fn copy_cell(draft: &mut Draft, i: usize, k: usize, place: u64)
    requires { (i < behaviour_limit) × (k < behaviour_limit) }
    ensures { draft.new ≡ cell_copied draft.old i k place }
{
    copy_entries(draft, i, k);
    draft[layout::STARTS + k] = draft[layout::STARTS + i];
    draft[layout::VIEWERS + k] = draft[layout::VIEWERS + i];
    draft[layout::PLACES + k] = place;
}

// The cells of a row of count, the first of which is behaviour i, already read.
#[tactic(auto, using(crate::proofs::Copies::cells_more), unfolding(crate::specs::Cells::cells_copied, crate::specs::Cells::row_copied))]
pub fn copy_row(draft: &mut Draft, i: usize, count: usize)
    requires { (i < behaviour_limit) × (i + count ≤ behaviour_limit) }
    ensures { draft.new ≡ row_copied draft.old i count }
{
    draft[layout::PLACES + i] = (count * CELLS) as u64;
    for n in 1..count {
        copy_cell(draft, i, i + n, (count * CELLS + n) as u64);
    }
}
