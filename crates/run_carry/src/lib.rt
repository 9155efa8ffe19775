// The values that a round is carried to a new table with: those that stay, the new starts, and the passives worked out
// by the new table's instructions.

#![tactic(auto)]

ghost use Rattle.std.specs.Prelude.{◌≡◌, ◌+◌, ◌≤◌, ◌<◌, length};
ghost use Rattle.lib_word.specs.Word.{get};
ghost use Rattle.format_layout.specs.Round.{call_result};
ghost use Rattle.run_carry.specs.Carry.{active_in_table, value_for, fill_at, filled_store, carry_on, shown_for, store_shown};
ghost use Rattle.format_layout.specs.Sizes.{depth_word, round_bytes, table_bytes};
ghost use Rattle.spec_language.specs.Limits.{behaviour_limit, stack_depth};
ghost use Rattle.spec_language.specs.Verdicts.{verdict_number};

use format_layout::round::Round;
use format_layout::table;
use spec_language::limits;
use spec_language::refusals::Refusal;

// ---- what each behaviour begins with

// Whether a behaviour is one of the table's, and an active.
#[tactic(auto, using(lib_base::proofs::Pick::branches), unfolding(crate::specs::Carry::active_kind, crate::specs::Carry::active_in_table))]
fn is_active(table: &[u8], behaviour: usize) -> bool
    requires { (table_bytes ≤ length table.now) × (behaviour < behaviour_limit) }
    ensures { result ≡ active_in_table table.now behaviour }
{
    behaviour < (lib_word::get_word(table, table::BEHAVIOUR_COUNT) as usize)
        && lib_word::get_word(table, table::KINDS + behaviour) == 0
}

// What a behaviour begins with: its value where it is active in both tables, else that of a fresh round.
#[tactic(auto, using(lib_base::proofs::Pick::branches), unfolding(crate::specs::Carry::kept_or_fresh, crate::specs::Carry::value_for))]
fn value_for(old: &[u8], table: &[u8], round: &[u8], behaviour: usize) -> u32
    requires { (table_bytes ≤ length old.now) × (table_bytes ≤ length table.now) × (round_bytes ≤ length round.now) × (behaviour < behaviour_limit) }
    ensures { result ≡ value_for old.now table.now round.now behaviour }
{
    if is_active(old, behaviour) && is_active(table, behaviour) {
        return lib_word::get_word(round, Round::STORE + behaviour);
    }
    lib_word::get_word(table, table::VALUES + behaviour)
}

// A behaviour's value goes into store and scratch of `values`.
#[tactic(auto, unfolding(crate::specs::Carry::fill_at))]
fn fill_at(values: &mut [u8], behaviour: usize, value: u32)
    requires { (round_bytes ≤ length values.old) × (behaviour < behaviour_limit) }
    ensures { values.new ≡ fill_at values.old behaviour value }
{
    lib_word::put_word(values, Round::STORE + behaviour, value);
    lib_word::put_word(values, Round::SCRATCH + behaviour, value);
}

fn fill(old: &[u8], table: &[u8], round: &[u8], values: &mut [u8])
    requires { (table_bytes ≤ length old.now) × (table_bytes ≤ length table.now) × (round_bytes ≤ length round.now)
        × (round_bytes ≤ length values.old) }
    ensures { values.new ≡ filled_store old.now table.now round.now values.old behaviour_limit }
{
    for i in 0..limits::BEHAVIOURS {
        fill_at(values, i, value_for(old, table, round, i));
    }
}

// ---- the passives

// Every behaviour's value, a passive's in the scratch of `values`, an active's in its store; or 14 where the new
// table's instructions for its passives do not lie within 4,096 or one of them may not run.
pub fn carry_on(old: &[u8], table: &[u8], round: &[u8], values: &mut [u8]) -> Result<(), Refusal>
    requires table_bytes_in_bounds { (table_bytes ≤ length old.now) × (table_bytes ≤ length table.now) × (round_bytes ≤ length round.now)
        × (round_bytes ≤ length values.old) }
    requires depth_word_bound { get values.old depth_word ≤ stack_depth }
    ensures { call_result (verdict_number result) values.new
        ≡ carry_on old.now table.now round.now values.old }
{
    fill(old, table, round, values);
    let start = lib_word::get_word(table, table::PASSIVES_START);
    let length = lib_word::get_word(table, table::PASSIVES_LENGTH);
    if !format_layout::code_fits(start, length) {
        return Err(Refusal::Foreign);
    }
    if run_stretch::execute_from(table, values, start as usize, length) != 0 {
        return Err(Refusal::Foreign);
    }
    Ok(())
}

// ---- what the board shows then

// A behaviour's value: a passive's is in the scratch of `values`, an active's in the store.
#[tactic(auto, using(lib_base::proofs::Pick::branches), unfolding(crate::specs::Carry::shown_of, crate::specs::Carry::shown_for))]
fn shown_for(table: &[u8], values: &[u8], behaviour: usize) -> u32
    requires { (table_bytes ≤ length table.now) × (round_bytes ≤ length values.now) × (behaviour < behaviour_limit) }
    ensures { result ≡ shown_for table.now values.now behaviour }
{
    if lib_word::get_word(table, table::KINDS + behaviour) == 0 {
        return lib_word::get_word(values, Round::STORE + behaviour);
    }
    lib_word::get_word(values, Round::SCRATCH + behaviour)
}

// The values that `carry_on` left go into the round's store.
pub fn show(table: &[u8], values: &[u8], round: &mut [u8])
    requires { (table_bytes ≤ length table.now) × (round_bytes ≤ length values.now) × (round_bytes ≤ length round.old) }
    ensures { round.new ≡ store_shown table.now values.now round.old behaviour_limit }
{
    for i in 0..limits::BEHAVIOURS {
        lib_word::put_word(round, Round::STORE + i, shown_for(table, values, i));
    }
}
