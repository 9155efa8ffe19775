// The calls that engine_c exports for C. Each contract gives the answer and every byte at exit, for all bytes and
// numbers; none has a `requires`. What is lent as `&[u8]`, the table to all but compile, stays as it was by its type.

#![tactic(auto)]

ghost use Rattle.std.specs.Prelude.{◌≡◌, ◌+◌, ◌*◌, ◌≤◌, ◌<◌, length};
ghost use Rattle.back_compile.specs.Verdict.{compile_on};
ghost use Rattle.back_compile.specs.Compiled.{compiled};
ghost use Rattle.ask_circle.specs.Witness.{Witnessed};
ghost use Rattle.ask_agree.specs.Agree.{agree_on};
ghost use Rattle.ask_agree_for.specs.AgreeFor.{agree_for_on};
ghost use Rattle.ask_pair.specs.Pair.{pair_on};
ghost use Rattle.ask_leak.specs.Leak.{leak_on};
ghost use Rattle.format_layout.specs.Round.{call_result};
ghost use Rattle.run_start.specs.Start.{start_on};
ghost use Rattle.run_arrive.specs.Arrivals.{arrive_on};
ghost use Rattle.run_board.specs.Board.{board_on};
ghost use Rattle.run_mend.specs.Mending.{mend_on};
ghost use Rattle.run_step.specs.Machine.{step_on};
ghost use Rattle.run_forecast.specs.Forecast.{forecast_on};
ghost use Rattle.run_preview.specs.Preview.{preview_on};
ghost use Rattle.run_counts.specs.Counts.{event_count_on, behaviour_count_on, event_rank_on};
ghost use Rattle.run_counts.specs.Version.{version_number};
ghost use Rattle.run_frame.specs.Frame.{frame_on};
ghost use Rattle.run_frame.specs.Framed.{framed};
ghost use Rattle.run_deliver.specs.Deliver.{deliver_on, taken_on};
ghost use Rattle.run_deliver.specs.Delivery.{delivery};
ghost use Rattle.text_formula.specs.Answer.{answered};
ghost use Rattle.text_formula.specs.Formula.{formula_on};
ghost use Rattle.source_assemble.specs.AssembleNumber.{assemble_number};
ghost use Rattle.source_describe.specs.Describing.{describe_on};
ghost use Rattle.link_join.specs.Join.{join_on};
ghost use Rattle.link_join.specs.Joined.{joined};
ghost use Rattle.refine_calls.specs.Refinement.{told_on, call_on, answers_on, round_after};
ghost use Rattle.engine.specs.Replay.{call_of, calls_from, put_answers, call_count};

use spec_language::answers;
use steps::CallKind;

mod steps;

// The table of a sheet with its parameters. 0, or the refusal's number, 1, 3 to 13 or 20, the table as it was.
pub fn compile(sheet: &[u8], params: &[u8], table: &mut [u8]) -> u32
    ensures table_after { compiled result table.new ≡ compile_on sheet.now params.now table.old }
{
    back_compile::compile_at(sheet, params, table)
}

// Why a sheet is turned down: compile's number, as with a full table, the list as it was; with 12 a shortest circle's
// event times 256 (255 for none) and its length times 65,536, and it in the list's first bytes, where it has room.
pub fn circle(sheet: &[u8], params: &[u8], list: &mut [u8]) -> u64
    ensures witnessed { Witnessed sheet.now params.now list.old result list.new }
{
    ask_circle::circle_at(sheet, params, list)
}

// A fresh round. 0, or 14.
pub fn start(table: &[u8], round: &mut [u8]) -> u32
    ensures round_after { call_result result round.new ≡ start_on table.now round.old }
{
    run_start::start_round(table, round)
}

// An event arrives, sent by a player. 0, or 14, 24, 15, 25, 16, 17.
pub fn arrive(table: &[u8], round: &mut [u8], event: u32, player: u32) -> u32
    ensures round_after { call_result result round.new ≡ arrive_on table.now round.old event player }
{
    run_arrive::arrive_at(table, round, event, player)
}

// One step. 0 idle, 1 one instruction, 2 a start, 3 a commit, 4 a start that preempts, with player, event and arrival
// number; or 14. With a commit 2 ^ 56 more where the event ran over (02, M-104): the host's answer.
pub fn step(table: &[u8], round: &mut [u8]) -> u64
    ensures round_after { call_result result round.new ≡ step_on table.now round.old }
{
    run_step::step_at(table, round)
}

// A step's answer as the other players are told it: without the mark (02, M-107).
pub fn told(answer: u64) -> u64
    ensures { result ≡ told_on answer }
{
    answer % answers::OVER
}

// The value of a behaviour, for a player: 2 ^ 32 and the word; or 14, 24, 18, 25, 19.
pub fn board(table: &[u8], round: &[u8], behaviour: u32, player: u32) -> u64
    ensures value { result ≡ board_on table.now round.now behaviour player }
{
    run_board::board_at(table, round, behaviour, player)
}

// The steps to idle if no arrival is taken in meanwhile, exact with nothing running, else 01's bound: 2 ^ 32 and their
// number; or 14.
pub fn forecast(table: &[u8], round: &[u8]) -> u64
    ensures value { result ≡ forecast_on table.now round.now }
{
    run_forecast::forecast_at(table, round)
}

// The value of a behaviour after an event's arrival and everything in hand, tried on a copy: 2 ^ 32 and the word; or
// 14, 24, 15, 25, 16, 17, 18, 25, and last 14 where a step on the copy is refused or 01's count runs out.
pub fn preview(table: &[u8], round: &[u8], event: u32, behaviour: u32, player: u32) -> u64
    ensures value { result ≡ preview_on table.now round.now event behaviour player }
{
    run_preview::preview_at(table, round, event, behaviour, player)
}

// A round goes on under a newly compiled table: hand and numbers stay, the running event goes back to the hand, actives
// of both sheets keep their value. 0, or 14, 19, 28, the round as it was.
pub fn mend(old: &[u8], table: &[u8], round: &mut [u8]) -> u32
    ensures round_after { call_result result round.new ≡ mend_on old.now table.now round.old }
{
    run_mend::mend_at(old, table, round)
}

// A formula's expression field at the start of the buffer: 2 ^ 32 and its length; or 21, 22, 9, 23, the buffer as it
// was.
pub fn formula(text: &[u8], buffer: &mut [u8]) -> u64
    ensures buffer_after { answered result buffer.new ≡ formula_on text.now buffer.old }
{
    text_translate::translate_at(text, buffer)
}

// One sheet from two accepted ones, at the start of the buffer: 2 ^ 32 and its length; or compile's number of the
// first, of the second, 26, 3, 7, 13, 27, the buffer as it was.
pub fn join(first: &[u8], second: &[u8], params: &[u8], buffer: &mut [u8]) -> u64
    ensures buffer_after { joined result buffer.new ≡ join_on first.now second.now params.now buffer.old }
{
    link_join::join_at(first, second, params, buffer)
}

// ---- a recorded list of calls

// A call of the record has six bytes: its kind, a number of 32 bits and the player; an answer has eight.
const CALL_BYTES: usize = steps::CALL_BYTES;

const PLAYER_AT: usize = 5;

const ANSWER_BYTES: usize = run_answers::ANSWER_BYTES;

// One call of the record.
fn make_call(table: &[u8], round: &mut [u8], kind: u8, n: u32, player: u32) -> u64
    ensures { call_result result round.new ≡ call_on table.now (call_of kind n player) round.old }
{
    match CallKind::from(kind) {
        CallKind::Arrival => arrive(table, round, n, player) as u64,
        CallKind::Step => step(table, round),
        CallKind::Board => board(table, round, n, player),
    }
}

#[tactic(auto, using(lib_base::proofs::Pick::branches), unfolding(crate::specs::Replay::call_count))]
fn call_count(calls: usize, answers: usize) -> usize
    ensures value { result ≡ call_count calls answers }
    ensures result_bound { (result * 6 ≤ calls) × (result * 8 ≤ answers) }
{
    (calls / CALL_BYTES).min(answers / ANSWER_BYTES)
}

// Makes the recorded calls one after the other, and writes their answers: what a host needs to audit a round. Steps in
// a row are judged once. How many were made.
pub fn replay(table: &[u8], round: &mut [u8], calls: &[u8], answers: &mut [u8]) -> usize
    ensures value { result ≡ call_count (length calls.now) (length answers.old) }
    ensures round_after { round.new ≡ round_after table.now (calls_from calls.now 0 result) round.old }
    ensures answers_after { answers.new ≡ put_answers answers.old 0
        (answers_on table.now (calls_from calls.now 0 result) round.old) }
{
    let n = call_count(calls.len(), answers.len());
    let mut i = 0;
    while i < n {
        let at = steps::past_steps(&*table, round, &*calls, i, n, answers);
        if at == n {
            return n;
        }
        let k = at * CALL_BYTES;
        let r = make_call(
            table,
            round,
            calls[k],
            lib_word::get_at(calls, k + 1),
            calls[k + PLAYER_AT] as u32,
        );
        run_answers::put_answer(answers, at, r);
        i = at + 1;
    }
    n
}

// ---- what a host asks of the library and of a table

// The version of these calls times 65,536, and that of the layout of table and round.
pub fn version() -> u32
    ensures { result ≡ version_number }
{
    run_counts::version_of()
}

// How many events a table's program declares: 2 ^ 32 and their number; or 14.
pub fn event_count(table: &[u8]) -> u64
    ensures value { result ≡ event_count_on table.now }
{
    run_counts::events_of(table)
}

// How many behaviours it has: 2 ^ 32 and their number; or 14.
pub fn behaviour_count(table: &[u8]) -> u64
    ensures value { result ≡ behaviour_count_on table.now }
{
    run_counts::behaviours_of(table)
}

// An event's rank: 2 ^ 32 and the rank; or 14, 15.
pub fn event_rank(table: &[u8], event: u32) -> u64
    ensures value { result ≡ event_rank_on table.now event }
{
    run_counts::rank_of(table, event)
}

// ---- a frame

// Up to so many steps, the answer of each that commits written to `commits`, eight bytes each. Bits 0 to 31: the steps
// made; 32 to 55: the commits written; 56 to 63: why it ended: 1 nothing is left in hand, the next would be idle; else
// 0 all made, 2 the next is refused by 14, 3 no room for a further commit; 0 where no step is asked for.
pub fn frame(table: &[u8], round: &mut [u8], steps: u32, commits: &mut [u8]) -> u64
    ensures commits_after { framed result round.new commits.new ≡ frame_on table.now round.old steps commits.old }
{
    run_frame::frame_at(&*table, round, steps, commits)
}

// ---- an order that several phones share

// Entry `number` of the order, an event sent by a player: taken in once, and in its place. Refused by 14, by 43 where
// entries before it are missing, by 44 where it was taken in before, then by 24, 15, 25, 17, and nothing is changed.
// Where 64 are in hand it makes steps until one commits, whose answer is written to `commits`, eight bytes. Bits 0 to
// 31: the steps made; 32 to 55: the commits written; 56 to 63: 1 taken in, 2 the hand is full and there is no room for
// a commit: no step made, 3 a step was refused by 14. Below 2 ^ 56: the refusal's number.
pub fn deliver(
    table: &[u8],
    round: &mut [u8],
    number: u32,
    event: u32,
    player: u32,
    commits: &mut [u8],
) -> u64
    ensures commits_after { delivery result round.new commits.new
        ≡ deliver_on table.now round.old number event player commits.old }
{
    run_deliver::deliver_at(&*table, round, number, event, player, commits)
}

// How many were taken in, and how many of them are in hand: 2 ^ 32 and the number taken in, and 2 ^ 40 for each in
// hand; or 14.
pub fn taken(table: &[u8], round: &[u8]) -> u64
    ensures value { result ≡ taken_on table.now round.now }
{
    run_deliver::taken_at(table, round)
}

// ---- what a sheet promises

// Will two phones agree? compile's number, as with a full table; 0 where every two declared events of unequal rank are
// independent; else 29, the first event times 256, the second times 65,536 and times 2 ^ 24 a behaviour that one of
// them writes and the other reads or writes: the least first event, then the least second, then the least behaviour.
pub fn agree(sheet: &[u8], params: &[u8]) -> u64
    ensures value { result ≡ agree_on sheet.now params.now }
{
    ask_agree::agree_at(sheet, params)
}

// Will two phones agree on one behaviour? compile's number, as with a full table; 18 for a number that is no
// behaviour's; 0 where no two declared events of unequal rank meet in what the behaviour depends on; else 29, the first
// event times 256, the second times 65,536 and times 2 ^ 24 the behaviour at which they meet: the least first event,
// then the least second, then the least behaviour.
pub fn agree_for(sheet: &[u8], params: &[u8], behaviour: u32) -> u64
    ensures value { result ≡ agree_for_on sheet.now params.now behaviour }
{
    ask_agree_for::agree_for_at(sheet, params, behaviour)
}

// What do two events share? compile's number, as with a full table; 15 where either is not declared; 0 where they are
// independent, whatever their ranks; else 2 ^ 32, the least behaviour at which they meet, else the least that they
// share, and 256 times flags: 1 the first writes it, 2 the second does, 4 the first reads it, 8 the second does, 16
// both only add to it, 32 they meet there.
pub fn pair(sheet: &[u8], params: &[u8], first: u32, second: u32) -> u64
    ensures value { result ≡ pair_on sheet.now params.now first second }
{
    ask_pair::pair_at(sheet, params, first, second)
}

// May a hidden value leak to a player? compile's number, as with a full table; 24 for a player above 7; 0 where no
// behaviour that the player sees depends on a hidden one; else 30, the least behaviour that it sees and that names a
// hidden one times 256, and times 65,536 the least hidden one that this names.
pub fn leak(sheet: &[u8], params: &[u8], player: u32) -> u64
    ensures value { result ≡ leak_on sheet.now params.now player }
{
    ask_leak::leak_at(sheet, params, player)
}

// ---- a sheet as its setter writes it

// A sheet's text becomes its bytes at the start of the buffer: 2 ^ 32 and their number; or the kind of the first fault,
// 31 to 42, times 2 ^ 56, its line times 2 ^ 28 and its column, the buffer as it was.
pub fn assemble(text: &[u8], buffer: &mut [u8]) -> u64
    ensures buffer_after { answered result buffer.new ≡ assemble_number text.now buffer.old }
{
    source_assemble::assemble_at(text, buffer)
}

// A sheet becomes its text at the start of the buffer: 2 ^ 32 and its length; or compile's number, parameters lent,
// then 41, the buffer as it was.
pub fn describe(sheet: &[u8], buffer: &mut [u8]) -> u64
    ensures buffer_after { answered result buffer.new ≡ describe_on sheet.now buffer.old }
{
    source_describe::describe_at(sheet, buffer)
}
