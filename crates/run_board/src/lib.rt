// Board readings on the round's bytes, refused by 14 where table or round is foreign, and when the running one is
// masked.

#![tactic(auto)]

ghost use Rattle.std.specs.Prelude.{◌≡◌};
ghost use Rattle.format_layout.specs.Bounds.{Bounds};
ghost use Rattle.run_board.specs.Board.{board_on, copy_back_on};
ghost use Rattle.run_board.specs.Masking.{is_copying_back, is_masked, copy_back_under_way};
ghost use Rattle.spec_language.specs.Verdicts.{told_number};

use format_layout::round::Round;
use format_layout::table;
use spec_language::refusals::Refusal;
use spec_language::{answers, limits};

// ---- masking: of an event with so many instructions, and members of C, so many are done

#[tactic(auto, using(lib_base::proofs::Pick::branches), unfolding(crate::specs::Masking::is_copying_back))]
fn is_copying_back(length: u32, members: u32, done: u32) -> bool
    ensures { result ≡ is_copying_back length members done }
{
    length <= members || length - members - 1 <= done
}

#[tactic(auto, using(lib_base::proofs::Pick::branches), unfolding(crate::specs::Masking::is_masked))]
pub fn is_masked(length: u32, members: u32, done: u32) -> bool
    ensures { result ≡ is_masked length members done }
{
    is_copying_back(length, members, done) || done != 0 && done - 1 <= members
}

// ---- board readings

// Whether a copy-back is under way.
#[tactic(auto, using(lib_base::proofs::Pick::branches), unfolding(crate::specs::Masking::copy_back_with, crate::specs::Masking::copy_back_under_way))]
fn copy_back_under_way(table: &[u8], round: &[u8]) -> bool
    requires { Bounds table.now round.now }
    ensures { result ≡ copy_back_under_way table.now round.now }
{
    if lib_word::get_word(round, Round::RUNNING) == 0 {
        return false;
    }
    let event = format_layout::event_at(round, Round::RUNNING_WORD);
    is_copying_back(
        format_layout::event_word(table, event, table::CODE_LENGTH),
        format_layout::event_word(table, event, table::MEMBERS),
        lib_word::get_word(round, Round::POSITION),
    )
}

// The value of a behaviour for a player, or the first of 14, 24, 18, 25 and 19 that fits.
#[tactic(auto, using(lib_base::proofs::Pick::branches, crate::proofs::Opened::board_opened))]
fn read_board(table: &[u8], round: &[u8], behaviour: u32, player: u32) -> Result<u32, Refusal>
    ensures { told_number result ≡ board_on table.now round.now behaviour player }
{
    if !run_validate::is_ours(&*table, &*round) {
        return Err(Refusal::Foreign);
    }
    if player >= limits::PLAYERS {
        return Err(Refusal::NoPlayer);
    }
    if lib_word::get_word(table, table::BEHAVIOUR_COUNT) <= behaviour {
        return Err(Refusal::NoBehaviour);
    }
    if !run_rights::may_see(table, behaviour, player) {
        return Err(Refusal::NoRight);
    }
    if copy_back_under_way(&*table, &*round) {
        return Err(Refusal::Settling);
    }
    Ok(lib_word::get_word(round, Round::STORE + (behaviour as usize)))
}

// The same as a number: 2 ^ 32 and the word, or the refusal's number.
pub fn board_at(table: &[u8], round: &[u8], behaviour: u32, player: u32) -> u64
    ensures { result ≡ board_on table.now round.now behaviour player }
{
    answers::answer_of(read_board(table, round, behaviour, player))
}

// Whether a copy-back is under way; false where table or round is foreign.
#[tactic(auto, using(lib_base::proofs::Pick::branches), unfolding(crate::specs::Board::copy_back_on))]
pub fn copy_back_at(table: &[u8], round: &[u8]) -> bool
    ensures { result ≡ copy_back_on table.now round.now }
{
    run_validate::is_ours(&*table, &*round) && copy_back_under_way(&*table, &*round)
}
