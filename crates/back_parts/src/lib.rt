// The table's parts that take no order: values, the head, the record of one event, and who may see and send.

#![tactic(auto)]

ghost use Rattle.std.specs.Prelude.{◌≡◌, [], ◌∷◌, ◌+◌, ◌%◌, ◌<◌, ◌≤◌, length, get_or};
ghost use mathlib.Core.List.{flat_map};
ghost use Rattle.format_image.specs.Table.{padded};
ghost use Rattle.back_counts.specs.Counts.{count_members};
ghost use Rattle.back_emit.specs.Writing.{Wrote, HasRoom, Emits};
ghost use Rattle.back_parts.specs.RightWords.{right_words};
ghost use Rattle.draft_form.specs.Sizes.{draft_priorities};
ghost use Rattle.format_layout.specs.Sizes.{event_records, last_column, last_record, table_bytes, table_kinds, table_viewers};
ghost use Rattle.lib_base.specs.Words.{word_values};
ghost use Rattle.spec_language.specs.Limits.{behaviour_limit, event_limit, instruction_limit};

use back_emit::Emitter;
use draft_form::{Draft, layout};
use format_layout::table;
use spec_language::limits;

// The head, from word 0 on: the numbers of events and behaviours.
pub fn write_head(events: usize, behaviours: usize, out: &mut Emitter<'_>)
    requires { (table_bytes ≤ length out.old.table.now) × (events ≤ event_limit) × (behaviours ≤ behaviour_limit) }
    ensures { Wrote out.old.table 0 (padded event_records (events ∷ behaviours ∷ [])) out.new.table out.new.place }
{
    out.place = table::EVENT_COUNT;
    out.word(events as u32);
    out.word(behaviours as u32);
    out.zeros(table::EVENTS);
}

// The record of the event, whose code begins at instruction start.
pub fn write_record(
    draft: &Draft,
    behaviours: usize,
    event: usize,
    start: usize,
    count: usize,
    out: &mut Emitter<'_>,
)
    requires numbers { (event < event_limit) × (behaviours ≤ behaviour_limit) × (start ≤ instruction_limit) × (count ≤ instruction_limit) }
    requires table_bytes_in_bounds { (table_bytes ≤ length out.old.table.now) × (out.old.place ≤ last_record) }
    ensures { Emits out.old
        ((get_or draft.now (draft_priorities + event) 0 % word_values) ∷ start ∷ count
        ∷ count_members draft.now event behaviours ∷ []) out.new }
{
    out.word((draft[layout::PRIORITIES + event] % layout::WORD) as u32);
    out.word(start as u32);
    out.word(count as u32);
    out.word(back_counts::count_members(draft, event, behaviours) as u32);
}

// The 64 values.
pub fn write_values(values: &[u32; limits::BEHAVIOURS], out: &mut Emitter<'_>)
    requires { (table_bytes ≤ length out.old.table.now) × (out.old.place ≤ last_column) }
    ensures { Emits out.old values.now out.new }
{
    for value in values {
        out.word(*value);
    }
}

// These numbers of the draft, a word for each.
fn write_numbers(numbers: &[u64], out: &mut Emitter<'_>)
    requires { HasRoom out.old (flat_map (λ x. (x % word_values) ∷ []) numbers.now) }
    ensures { Emits out.old (flat_map (λ x. (x % word_values) ∷ []) numbers.now) out.new }
{
    for number in numbers {
        out.word((*number % layout::WORD) as u32);
    }
}

// Who may see each behaviour, from word 200 on, and who may send each event, from word 264 on; zeros up to word 296.
pub fn write_rights(draft: &Draft, events: usize, behaviours: usize, out: &mut Emitter<'_>)
    requires { (events ≤ event_limit) × (behaviours ≤ behaviour_limit) × (table_bytes ≤ length out.old.table.now) }
    ensures wrote { Wrote out.old.table table_viewers (right_words draft.now events behaviours) out.new.table out.new.place }
    ensures value { out.new.place ≡ table_kinds }
{
    out.place = table::VIEWERS;
    write_numbers(&draft[layout::VIEWERS..layout::VIEWERS + behaviours], out);
    out.zeros(table::SENDERS);
    write_numbers(&draft[layout::SENDERS..layout::SENDERS + events], out);
    out.zeros(table::KINDS);
}
