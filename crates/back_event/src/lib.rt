// The handler of one event (003, Figure 3; 01: its code), written into the table from its draft (crate draft_form), in
// the order of Figure 3: the check on dependence, phase one, phase two, and then the copy and the copy-back around
// them.

#![tactic(auto)]

ghost use Rattle.std.specs.Prelude.{◌≤◌};
ghost use Rattle.back_counts.specs.Counts.{EntriesInside};
ghost use Rattle.back_emit.specs.Words.{each, member_words};
ghost use Rattle.back_emit.specs.Writing.{HasRoom, Emits};
ghost use Rattle.back_event.specs.Handlers.{masked_words, code_of};
ghost use Rattle.back_emit.specs.Opcodes.{restore_code};
ghost use Rattle.spec_language.specs.Limits.{behaviour_limit, event_limit};

use back_emit::{Emitter, opcodes};
use draft_form::Draft;
use spec_language::limits;

// The operation on i of each behaviour that the event copies.
fn emit_members(
    draft: &Draft,
    event: usize,
    operation: u32,
    behaviours: usize,
    out: &mut Emitter<'_>,
)
    requires index { (behaviours ≤ behaviour_limit) × (operation ≤ restore_code) }
    requires room { HasRoom out.old (each behaviours (member_words draft.now event operation)) }
    ensures { Emits out.old (each behaviours (member_words draft.now event operation)) out.new }
{
    for i in 0..behaviours {
        out.member(draft, event, operation, i);
    }
}

// Interrupts off, the operation on i of each behaviour that the event copies, interrupts on.
fn emit_masked(
    draft: &Draft,
    event: usize,
    operation: u32,
    behaviours: usize,
    out: &mut Emitter<'_>,
)
    requires index { (behaviours ≤ behaviour_limit) × (operation ≤ restore_code) }
    requires room { HasRoom out.old (masked_words draft.now event operation behaviours) }
    ensures { Emits out.old (masked_words draft.now event operation behaviours) out.new }
{
    out.instr(opcodes::OFF, 0);
    emit_members(draft, event, operation, behaviours, out);
    out.instr(opcodes::ON, 0);
}

// The code of the event. One with a circle gets none: compile has turned such a sheet down by then.
pub fn compile_event(draft: &Draft, event: usize, behaviours: usize, out: &mut Emitter<'_>)
    requires entries_inside { EntriesInside draft.now event behaviours × (event ≤ event_limit) }
    requires room { HasRoom out.old (code_of draft.now behaviours event) }
    ensures { Emits out.old (code_of draft.now behaviours event) out.new }
{
    // the check on dependence
    let mut order = [0u8; limits::BEHAVIOURS];
    let found = back_schedule::check_dependence(draft, event, behaviours, &mut order);
    let Some(count) = found else {
        return;
    };
    // the two phases, behind the room for the copy: off, one instruction for each of C, on
    let begin = out.place;
    out.place += 2 * (2 + back_counts::count_members(draft, event, behaviours));
    back_phases::phase_one(draft, event, behaviours, &order[..count], out);
    back_phases::phase_two(draft, event, behaviours, &order[..count], out);
    // the surrounding copy and copy-back
    let last = out.place;
    out.place = begin;
    emit_masked(draft, event, opcodes::COPY, behaviours, out);
    out.place = last;
    emit_masked(draft, event, opcodes::RESTORE, behaviours, out);
}
