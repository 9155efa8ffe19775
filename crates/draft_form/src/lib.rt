// Reading the draft of a program (layout: specs/Draft.antt).

#![tactic(auto)]

ghost use Rattle.std.specs.Prelude.{◌≡◌, ◌≢◌, ◌+◌, ◌<◌, ◌≤◌, MatchOption, take, drop, leb};
ghost use Rattle.draft_form.specs.Draft.{entry_of, moved, packed_entry};
ghost use Rattle.draft_form.specs.Entry.{entry_kind, entry_start, entry_count, node_tag, node_word};
ghost use Rattle.draft_form.specs.Sizes.{draft_nodes};
ghost use Rattle.draft_form.specs.Tags.{name_tag};
ghost use Rattle.spec_language.specs.Limits.{behaviour_limit};

use spec_language::limits;

pub mod layout;

// The draft's numbers.
pub type Draft = [u64; layout::LENGTH];

// What the draft has for behaviour i on the event; 32 stands for no event where 32 are declared.
#[tactic(auto, using(lib_base::proofs::Pick::branches), unfolding(crate::specs::Draft::entry_of))]
pub fn entry_of(draft: &Draft, event: usize, i: usize) -> u64
    requires { i < behaviour_limit }
    ensures { result ≡ entry_of draft.now event i }
{
    if draft[layout::PASSIVES + i] != 0 {
        return draft[layout::PASSIVES + i];
    }
    if event < limits::EVENTS {
        return draft[layout::HANDLERS + i * limits::EVENTS + event];
    }
    0
}

// What an entry says: layout::PASSIVE, IMMEDIATE or LATER; 0 where there is none.
pub fn entry_kind(entry: u64) -> u64
    ensures { result ≡ entry_kind entry }
{
    entry % layout::KINDS
}

// Whether it is a handler's.
pub fn is_handler(entry: u64) -> bool
    ensures { result ≡ leb 2 (entry_kind entry) }
{
    layout::IMMEDIATE <= entry_kind(entry)
}

// How many nodes its expression has.
pub fn entry_count(entry: u64) -> usize
    ensures { result ≡ entry_count entry }
{
    (entry / layout::COUNTS) as usize
}

// These nodes.
pub fn nodes_of(draft: &Draft, entry: u64) -> &[u64]
    requires { entry_start entry + entry_count entry ≤ draft_nodes }
    ensures { result.now ≡ take (entry_count entry) (drop (entry_start entry) draft.now) }
{
    let start = (entry / layout::KINDS % layout::FIRSTS) as usize;
    &draft[start..start + entry_count(entry)]
}

// The entry of this kind whose nodes are the count from start on.
pub fn pack_entry(kind: u64, start: usize, count: usize) -> u64
    requires { (kind ≤ 3) × (start + count ≤ draft_nodes) }
    ensures { result ≡ packed_entry kind start count }
{
    (count as u64 * layout::FIRSTS + start as u64) * layout::KINDS + kind
}

// What a node is: layout::CONSTANT, NAME, APPLICATION or PARAMETER.
pub fn node_tag(node: u64) -> u64
    ensures { result ≡ node_tag node }
{
    node / layout::WORD
}

// Its constant, or the number of its name, function or parameter.
pub fn node_word(node: u64) -> u32
    ensures { result ≡ node_word node }
{
    (node % layout::WORD) as u32
}

// The number of the name that it is, if it is one.
pub fn name_of(node: u64) -> Option<usize>
    ensures { MatchOption result (node_tag node ≢ name_tag) (λ j. (node_tag node ≡ name_tag) × (j ≡ node_word node)) }
{
    if node_tag(node) == layout::NAME {
        return Some(node_word(node) as usize);
    }
    None
}

// The node as behaviour i uses it: in a row's cell, the name of the first cell of a row with the same count means the
// cell at the same place.
#[tactic(auto, using(lib_base::proofs::Pick::branches), unfolding(crate::specs::Draft::moved))]
pub fn moved_node(draft: &Draft, i: usize, node: u64) -> u64
    requires { i < behaviour_limit }
    ensures { result ≡ moved draft.now i node }
{
    // most nodes are no name, and leave at once
    let Some(m) = name_of(node) else {
        return node;
    };
    if m < limits::BEHAVIOURS {
        let place = draft[layout::PLACES + i];
        if draft[layout::PLACES + m] == place / layout::CELLS * layout::CELLS {
            return node + place % layout::CELLS;
        }
    }
    node
}
