// A round is carried to a newly compiled table. Refused by 14 where the round is foreign with the old table, or the new
// table or its instructions for the passives are, then by 19 and 28.

#![tactic(auto)]

ghost use Rattle.std.specs.Prelude.{◌≡◌, ◌≢◌, ◌≤◌, length};
ghost use Rattle.format_layout.specs.Layout.{waiting_count, running_flag, running_number, running_word};
ghost use Rattle.format_layout.specs.Bounds.{TableBounds};
ghost use Rattle.format_layout.specs.Round.{call_result};
ghost use Rattle.spec_language.specs.Verdicts.{verdict_number};
ghost use Rattle.run_mend.specs.Mending.{waiting_known, hand_known, back_in_hand, rested, mend_on};
ghost use Rattle.format_layout.specs.Sizes.{beside_running, queue_limit, round_bytes};

use format_layout::round::Round;
use format_layout::table;
use spec_language::refusals;
use spec_language::refusals::Refusal;

// ---- the hand

// Whether the first n waiting have events below `known`.
fn waiting_known(round: &[u8], known: u32, n: u32) -> bool
    requires { (round_bytes ≤ length round.now) × (n ≤ queue_limit) }
    ensures { result ≡ waiting_known round.now known n }
{
    (0..n).all(|i| format_layout::event_at(round, Round::WORDS + (i as usize) * 2) < known)
}

// Whether the new table declares each event in hand, the running one's too.
#[tactic(auto, using(lib_base::proofs::Pick::branches), unfolding(crate::specs::Mending::known_with, crate::specs::Mending::hand_known))]
fn hand_known(table: &[u8], round: &[u8]) -> bool
    requires { TableBounds table.now × (round_bytes ≤ length round.now) × (waiting_count round.now ≤ queue_limit) }
    ensures { result ≡ hand_known table.now round.now }
{
    let known = lib_word::get_word(table, table::EVENT_COUNT);
    waiting_known(round, known, lib_word::get_word(round, Round::WAITING))
        && (lib_word::get_word(round, Round::RUNNING) == 0
            || format_layout::event_at(round, Round::RUNNING_WORD) < known)
}

// The running one, if any, goes back to the hand.
#[tactic(auto, using(lib_base::proofs::Pick::branches), unfolding(crate::specs::Mending::back_in_hand, run_queue::specs::Queue::in_hand_last))]
fn back_in_hand(round: &mut [u8])
    requires round_bytes_in_bounds { round_bytes ≤ length round.old }
    requires round_bound { running_flag round.old ≢ 0 → waiting_count round.old ≤ beside_running }
    ensures { round.new
        ≡ back_in_hand round.old (waiting_count round.old)
        (running_flag round.old) (running_number round.old) (running_word round.old) }
{
    if lib_word::get_word(round, Round::RUNNING) == 0 {
        return;
    }
    let number = lib_word::get_word(round, Round::RUNNING_NUMBER);
    let word = lib_word::get_word(round, Round::RUNNING_WORD);
    run_queue::join_hand(round, number, word);
}

// Nothing runs.
#[tactic(auto, unfolding(crate::specs::Mending::rested))]
fn rest(round: &mut [u8])
    requires { round_bytes ≤ length round.old }
    ensures { round.new ≡ rested round.old }
{
    lib_word::put_word(round, Round::RUNNING, 0);
    lib_word::put_word(round, Round::DEPTH, 0);
    lib_word::put_word(round, Round::MARK, 0);
}

// ---- the call

// The round of the old table is carried to the new one (02, M-112), or refused by the first of 14, 19 and 28 that fits.
#[tactic(auto, using(crate::proofs::Opened::mending, spec_language::proofs::Refused::refusal_not_0), unfolding(crate::specs::Mending::verdict))]
fn carry_over(old: &[u8], table: &[u8], round: &mut [u8]) -> Result<(), Refusal>
    ensures { call_result (verdict_number result) round.new ≡ mend_on old.now table.now round.old }
{
    if !run_validate::is_ours(old, round) {
        return Err(Refusal::Foreign);
    }
    if !format_layout::table_fits(table) {
        return Err(Refusal::Foreign);
    }
    // The new values, in bytes of their own: 14 where an instruction for the passives may not run.
    let mut values = [0u8; Round::BYTES];
    run_carry::carry_on(old, table, round, &mut values)?;
    if run_board::copy_back_at(old, round) {
        return Err(Refusal::Settling);
    }
    if !hand_known(table, round) {
        return Err(Refusal::UndeclaredInHand);
    }
    back_in_hand(round);
    rest(round);
    run_carry::show(table, &values, round);
    Ok(())
}

// The same as a number: 0, or the refusal's.
pub fn mend_at(old: &[u8], table: &[u8], round: &mut [u8]) -> u32
    ensures { call_result result round.new ≡ mend_on old.now table.now round.old }
{
    refusals::verdict_number(carry_over(old, table, round))
}
