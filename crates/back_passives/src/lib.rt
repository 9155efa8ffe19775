// The table's words on passives: which behaviours they are, and where the instructions stand that work them out.

#![tactic(auto)]

ghost use Rattle.std.specs.Prelude.{◌≡◌, ◌≤◌, length, eqb};
ghost use Rattle.lib_base.specs.Basics.{pick};
ghost use Rattle.draft_form.specs.Entry.{entry_kind, entry_count};
ghost use Rattle.back_counts.specs.Counts.{EntriesInside};
ghost use Rattle.back_emit.specs.Words.{each};
ghost use Rattle.back_emit.specs.Writing.{Wrote, HasRoom, Emits};
ghost use Rattle.back_passives.specs.PassiveWords.{kind_word, again_share, count_again, again_start, draft_passive_words};
ghost use Rattle.back_passives.specs.Sizes.{most_passive_code};
ghost use Rattle.draft_form.specs.Sizes.{draft_nodes};
ghost use Rattle.format_layout.specs.Sizes.{code_begin, table_bytes, table_kinds};
ghost use Rattle.spec_language.specs.Limits.{behaviour_limit};

use back_emit::Emitter;
use draft_form::{Draft, entry_count, entry_kind, entry_of, layout};
use format_layout::table;

// 1 for a passive's entry.
#[tactic(auto, using(lib_base::proofs::Pick::branches))]
fn kind_of(entry: u64) -> u32
    ensures { result ≡ pick (eqb (entry_kind entry) 1) 1 0 }
{
    u32::from(entry_kind(entry) == layout::PASSIVE)
}

// The kinds of the behaviours.
fn write_kinds(draft: &Draft, behaviours: usize, out: &mut Emitter<'_>)
    requires entries_inside { EntriesInside draft.now 0 behaviours }
    requires room { HasRoom out.old (each behaviours (kind_word draft.now)) }
    ensures { Emits out.old (each behaviours (kind_word draft.now)) out.new }
{
    for i in 0..behaviours {
        out.word(kind_of(entry_of(draft, 0, i)));
    }
}

// What an entry adds to the instructions that work the passives out.
#[tactic(auto, using(lib_base::proofs::Pick::branches), unfolding(crate::specs::PassiveWords::again_share))]
fn passive_length(entry: u64) -> usize
    requires { entry_count entry ≤ draft_nodes }
    ensures { result ≡ again_share entry }
{
    if entry_kind(entry) == layout::PASSIVE {
        return entry_count(entry) + 1;
    }
    0
}

fn passives_length(draft: &Draft, behaviours: usize) -> usize
    requires { EntriesInside draft.now 0 behaviours }
    ensures { result ≡ count_again draft.now behaviours }
{
    let mut sum = 0;
    for i in 0..behaviours {
        sum += passive_length(entry_of(draft, 0, i));
    }
    sum
}

// Where they begin: event 0 has `all` instructions, `count` of them these, and copies m behaviours back.
#[tactic(auto, using(lib_base::proofs::Pick::branches), unfolding(crate::specs::PassiveWords::again_start))]
fn passives_start(events: usize, all: usize, m: usize, count: usize) -> usize
    requires { (m ≤ behaviour_limit) × (count ≤ most_passive_code) }
    ensures { result ≡ again_start events all m count }
{
    if events == 0 {
        return 0;
    }
    all.saturating_sub(count + (m + 2))
}

// Which behaviours are passives, from word 296 on, and the start and length of their instructions, in words 360 and
// 361; zeros up to word 512.
pub fn write_passives(draft: &Draft, events: usize, behaviours: usize, out: &mut Emitter<'_>)
    requires { EntriesInside draft.now 0 behaviours × (table_bytes ≤ length out.old.table.now) }
    ensures wrote { Wrote out.old.table table_kinds (draft_passive_words draft.now events behaviours) out.new.table out.new.place }
    ensures value { out.new.place ≡ code_begin }
{
    out.place = table::KINDS;
    write_kinds(draft, behaviours, out);
    out.zeros(table::PASSIVES_START);
    let count = passives_length(draft, behaviours);
    let m = back_counts::count_members(draft, 0, behaviours);
    let all = back_counts::count_event(draft, 0, behaviours);
    let start = passives_start(events, all, m, count);
    out.word(start as u32);
    out.word(count as u32);
    out.zeros(table::CODE);
}
