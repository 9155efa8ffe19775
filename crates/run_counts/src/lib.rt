// What a table tells of its program, and the version of this library: so that a host need not probe for them.

#![tactic(auto)]

ghost use Rattle.std.specs.Prelude.{◌≡◌, ◌<◌};
ghost use Rattle.run_counts.specs.Counts.{word_on, event_count_on, behaviour_count_on, event_rank_on};
ghost use Rattle.format_layout.specs.Sizes.{table_length};
ghost use Rattle.spec_language.specs.Verdicts.{told_number};
ghost use Rattle.run_counts.specs.Version.{version_number};

use format_layout::table;
use spec_language::answers;
use spec_language::refusals::Refusal;

// The version of the exported calls, and that of the layout of table and round.
pub const INTERFACE: u32 = 1;

pub const LAYOUT: u32 = 1;
// The layouts that a version of the calls has room for: its number stands above the layout's.
const LAYOUTS: u32 = 65536;

// The two versions in one number.
pub fn version_of() -> u32
    ensures { result ≡ version_number }
{
    INTERFACE * LAYOUTS + LAYOUT
}

// Word k of a table that is not foreign, or 14.
#[tactic(auto, using(lib_base::proofs::Pick::branches), unfolding(crate::specs::Counts::word_on))]
fn read_word(table: &[u8], k: usize) -> Result<u32, Refusal>
    requires { k < table_length }
    ensures { told_number result ≡ word_on table.now k }
{
    if !format_layout::table_fits(table) {
        return Err(Refusal::Foreign);
    }
    Ok(lib_word::get_word(table, k))
}

// How many events the table's program declares: 2 ^ 32 and their number; or 14.
#[tactic(auto, unfolding(crate::specs::Counts::word_on, crate::specs::Counts::event_count_on))]
pub fn events_of(table: &[u8]) -> u64
    ensures { result ≡ event_count_on table.now }
{
    answers::answer_of(read_word(table, table::EVENT_COUNT))
}

// How many behaviours it has: 2 ^ 32 and their number; or 14.
#[tactic(auto, unfolding(crate::specs::Counts::word_on, crate::specs::Counts::behaviour_count_on))]
pub fn behaviours_of(table: &[u8]) -> u64
    ensures { result ≡ behaviour_count_on table.now }
{
    answers::answer_of(read_word(table, table::BEHAVIOUR_COUNT))
}

// The rank of an event, or the first of 14 and 15 that fits.
#[tactic(auto, using(lib_base::proofs::Pick::branches), unfolding(crate::specs::Counts::event_rank_on))]
fn read_rank(table: &[u8], event: u32) -> Result<u32, Refusal>
    ensures { told_number result ≡ event_rank_on table.now event }
{
    if !format_layout::table_fits(table) {
        return Err(Refusal::Foreign);
    }
    if lib_word::get_word(table, table::EVENT_COUNT) <= event {
        return Err(Refusal::UndeclaredEvent);
    }
    Ok(format_layout::event_word(table, event, table::PRIORITY))
}

// The same as a number: 2 ^ 32 and the rank; or 14, 15.
pub fn rank_of(table: &[u8], event: u32) -> u64
    ensures { result ≡ event_rank_on table.now event }
{
    answers::answer_of(read_rank(table, event))
}
