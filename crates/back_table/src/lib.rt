// Writes the table of a draft (crate draft_form) whose faults are judged: the image's parts one after the other.

#![tactic(auto)]

ghost use Rattle.std.specs.Prelude.{◌≡◌, ◌≤◌, length};
ghost use Rattle.format_image.specs.Table.{put_words};
ghost use Rattle.check_faults.specs.Checks.{AllInside};
ghost use Rattle.back_emit.specs.Words.{each};
ghost use Rattle.back_emit.specs.Writing.{Wrote, HasRoom, Emits};
ghost use Rattle.back_event.specs.Handlers.{code_of};
ghost use Rattle.back_table.specs.TableWords.{count_before, record_words, fresh_words, alone_words, codes_of, table_words, Planned};
ghost use Rattle.format_layout.specs.Sizes.{code_begin, table_bytes, table_values};
ghost use Rattle.spec_language.specs.Limits.{behaviour_limit, event_limit};

use back_emit::Emitter;
use draft_form::Draft;
use format_layout::table;
use spec_language::limits;

// The table's words, of four bytes each.
const WORDS: usize = table::BYTES / 4;

fn write_records(draft: &Draft, events: usize, behaviours: usize, out: &mut Emitter<'_>)
    requires planned { Planned draft.now events behaviours }
    requires room { HasRoom out.old (each events (record_words draft.now behaviours)) }
    ensures { Emits out.old (each events (record_words draft.now behaviours)) out.new }
{
    let mut start = 0;
    for e in 0..events {
        let count = back_counts::count_event(draft, e, behaviours);
        back_parts::write_record(draft, behaviours, e, start, count, out);
        start += count;
    }
}

// The values of a fresh round, phase one under no event; who may see and send; how passives are worked out.
fn write_fresh(draft: &Draft, events: usize, behaviours: usize, out: &mut Emitter<'_>)
    requires planned { Planned draft.now events behaviours }
    requires table_bytes_in_bounds { table_bytes ≤ length out.old.table.now }
    ensures wrote { Wrote out.old.table table_values (fresh_words draft.now events behaviours) out.new.table out.new.place }
    ensures value { out.new.place ≡ code_begin }
{
    let mut order = [0u8; limits::BEHAVIOURS];
    let count = back_schedule::order_under(draft, events, behaviours, &mut order);
    let values = back_fresh::fresh_values(draft, behaviours, events, &order[..count]);
    out.place = table::VALUES;
    back_parts::write_values(&values, out);
    back_parts::write_rights(draft, events, behaviours, out);
    back_passives::write_passives(draft, events, behaviours, out);
}

// The code of each event.
fn write_events(draft: &Draft, events: usize, behaviours: usize, out: &mut Emitter<'_>)
    requires planned { Planned draft.now events behaviours }
    requires room { HasRoom out.old (each events (code_of draft.now behaviours)) }
    ensures { Emits out.old (each events (code_of draft.now behaviours)) out.new }
{
    for e in 0..events {
        back_event::compile_event(draft, e, behaviours, out);
    }
}

// The instructions that work the passives out, alone.
fn write_passive_code(draft: &Draft, events: usize, behaviours: usize, out: &mut Emitter<'_>)
    requires planned { Planned draft.now events behaviours }
    requires room { HasRoom out.old (alone_words draft.now behaviours) }
    ensures { Emits out.old (alone_words draft.now behaviours) out.new }
{
    let mut order = [0u8; limits::BEHAVIOURS];
    let count = back_schedule::order_under(draft, 0, behaviours, &mut order);
    back_phases::emit_passives(draft, 0, behaviours, &order[..count], out);
}

// The instructions: each event's, or where none is declared those for the passives.
fn write_codes(draft: &Draft, events: usize, behaviours: usize, out: &mut Emitter<'_>)
    requires planned { Planned draft.now events behaviours }
    requires room { HasRoom out.old (codes_of draft.now events behaviours) }
    ensures { Emits out.old (codes_of draft.now events behaviours) out.new }
{
    if events == 0 {
        write_passive_code(draft, events, behaviours, out);
    } else {
        write_events(draft, events, behaviours, out);
    }
}

// The table.
pub fn write_table(draft: &Draft, events: usize, behaviours: usize, table: &mut [u8])
    requires planned { Planned draft.now events behaviours }
    requires table_bytes_in_bounds { table_bytes ≤ length table.old }
    ensures { table.new ≡ put_words table.old 0 (table_words draft.now events behaviours) }
{
    let mut out = Emitter { table, place: 0 };
    back_parts::write_head(events, behaviours, &mut out);
    write_records(draft, events, behaviours, &mut out);
    out.zeros(table::VALUES);
    write_fresh(draft, events, behaviours, &mut out);
    write_codes(draft, events, behaviours, &mut out);
    out.zeros(WORDS);
}

// How many instructions the events have together.
pub fn count_all(draft: &Draft, events: usize, behaviours: usize) -> usize
    requires { (events ≤ event_limit) × (behaviours ≤ behaviour_limit) × AllInside draft.now events behaviours }
    ensures { result ≡ count_before draft.now behaviours events }
{
    let mut sum = 0;
    for e in 0..events {
        sum += back_counts::count_event(draft, e, behaviours);
    }
    sum
}
