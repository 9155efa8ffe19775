// 01's count of an event's instructions, and how many behaviours it copies, from the draft (crate draft_form).

#![tactic(auto)]

ghost use Rattle.std.specs.Prelude.{◌≡◌, ◌≤◌};
ghost use Rattle.draft_form.specs.Entry.{entry_count};
ghost use Rattle.back_counts.specs.Counts.{EntriesInside, share_of, count_event, count_members};
ghost use Rattle.draft_form.specs.Sizes.{draft_nodes};
ghost use Rattle.spec_language.specs.Limits.{behaviour_limit};

use draft_form::{Draft, entry_count, entry_kind, entry_of, layout};

// Off and on around the copy and around the copy-back.
const MASKS: usize = 4;

// What an entry adds to the count of instructions.
#[tactic(auto, using(lib_base::proofs::Pick::branches), unfolding(crate::specs::Counts::share_of))]
fn entry_length(entry: u64) -> usize
    requires { entry_count entry ≤ draft_nodes }
    ensures { result ≡ share_of entry }
{
    let count = entry_count(entry);
    match entry_kind(entry) {
        layout::PASSIVE => 2 + 2 * (count + 1),
        layout::IMMEDIATE => 2 + (count + 1),
        layout::LATER => 2 + (count + 2),
        _ => 0,
    }
}

// How many instructions the code of the event has.
pub fn count_event(draft: &Draft, event: usize, behaviours: usize) -> usize
    requires { EntriesInside draft.now event behaviours }
    ensures { result ≡ count_event draft.now event behaviours }
{
    let mut sum = MASKS;
    for i in 0..behaviours {
        sum += entry_length(entry_of(draft, event, i));
    }
    sum
}

// How many behaviours the event copies.
pub fn count_members(draft: &Draft, event: usize, behaviours: usize) -> usize
    requires { behaviours ≤ behaviour_limit }
    ensures { result ≡ count_members draft.now event behaviours }
{
    let mut count = 0;
    for i in 0..behaviours {
        if entry_of(draft, event, i) != 0 {
            count += 1;
        }
    }
    count
}
