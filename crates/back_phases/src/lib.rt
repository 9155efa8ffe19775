// The two phases of an event's handler (003, Figure 3), written into the table from its draft (crate draft_form) and
// the order that the check on dependence gives.

#![tactic(auto)]

ghost use Rattle.std.specs.Prelude.{◌≤◌, length};
ghost use mathlib.Core.List.{flat_map};
ghost use Rattle.back_counts.specs.Counts.{EntriesInside};
ghost use Rattle.back_schedule.specs.Ordering.{OrderListed};
ghost use Rattle.back_emit.specs.Words.{each, turn_words, turn_words_of_kind, move_words};
ghost use Rattle.back_emit.specs.Writing.{HasRoom, Emits};
ghost use Rattle.back_phases.specs.Phases.{first_words, second_words};
ghost use Rattle.back_emit.specs.Opcodes.{defer_code, save_code};
ghost use Rattle.spec_language.specs.Limits.{behaviour_limit};

use back_emit::{Emitter, opcodes};
use draft_form::{Draft, layout};

// Each behaviour in its order.
fn emit_turns(draft: &Draft, event: usize, behaviours: usize, order: &[u8], out: &mut Emitter<'_>)
    requires entries_inside { EntriesInside draft.now event behaviours × OrderListed order.now (length order.now) behaviours }
    requires room { HasRoom out.old (flat_map (turn_words draft.now event save_code) order.now) }
    ensures { Emits out.old (flat_map (turn_words draft.now event save_code) order.now) out.new }
{
    for i in order {
        out.turn_code(draft, event, opcodes::SAVE, *i as usize);
    }
}

// The later handlers, over the first phase's values.
fn emit_laters(draft: &Draft, event: usize, behaviours: usize, out: &mut Emitter<'_>)
    requires entries_inside { EntriesInside draft.now event behaviours }
    requires room { HasRoom out.old (each behaviours (turn_words_of_kind draft.now event 3 defer_code)) }
    ensures { Emits out.old (each behaviours (turn_words_of_kind draft.now event 3 defer_code)) out.new }
{
    for i in 0..behaviours {
        out.turn_of_kind(draft, event, layout::LATER, opcodes::DEFER, i);
    }
}

// Phase one: the passives and the immediate handlers in their order, then the later handlers.
pub fn phase_one(
    draft: &Draft,
    event: usize,
    behaviours: usize,
    order: &[u8],
    out: &mut Emitter<'_>,
)
    requires entries_inside { EntriesInside draft.now event behaviours × OrderListed order.now (length order.now) behaviours }
    requires room { HasRoom out.old (first_words draft.now event behaviours order.now) }
    ensures { Emits out.old (first_words draft.now event behaviours order.now) out.new }
{
    emit_turns(draft, event, behaviours, order, out);
    emit_laters(draft, event, behaviours, out);
}

// Their values, moved to scratch.
fn emit_moves(draft: &Draft, event: usize, behaviours: usize, out: &mut Emitter<'_>)
    requires index { behaviours ≤ behaviour_limit }
    requires room { HasRoom out.old (each behaviours (move_words draft.now event)) }
    ensures { Emits out.old (each behaviours (move_words draft.now event)) out.new }
{
    for i in 0..behaviours {
        out.later_move(draft, event, i);
    }
}

// The passives again, in the same order.
pub fn emit_passives(
    draft: &Draft,
    event: usize,
    behaviours: usize,
    order: &[u8],
    out: &mut Emitter<'_>,
)
    requires entries_inside { EntriesInside draft.now event behaviours × OrderListed order.now (length order.now) behaviours }
    requires room { HasRoom out.old (flat_map (turn_words_of_kind draft.now event 1 save_code) order.now) }
    ensures { Emits out.old (flat_map (turn_words_of_kind draft.now event 1 save_code) order.now) out.new }
{
    for i in order {
        out.turn_of_kind(draft, event, layout::PASSIVE, opcodes::SAVE, *i as usize);
    }
}

// Phase two: the later handlers' values, then the passives again.
pub fn phase_two(
    draft: &Draft,
    event: usize,
    behaviours: usize,
    order: &[u8],
    out: &mut Emitter<'_>,
)
    requires entries_inside { EntriesInside draft.now event behaviours × OrderListed order.now (length order.now) behaviours }
    requires room { HasRoom out.old (second_words draft.now event behaviours order.now) }
    ensures { Emits out.old (second_words draft.now event behaviours order.now) out.new }
{
    emit_moves(draft, event, behaviours, out);
    emit_passives(draft, event, behaviours, order, out);
}
