// A frame: up to as many steps as are asked for in one call, each commit's answer written to a lent buffer.

#![tactic(auto)]

ghost use Rattle.std.specs.Prelude.{◌≡◌, ◌≢◌, ◌+◌, ◌*◌, ◌≤◌, ◌<◌, length};
ghost use Rattle.run_frame.specs.Frame.{frame_said, count_after, commits_after, idle_or, frame_from, refused_frame, frame_on};
ghost use Rattle.run_frame.specs.Framed.{room_for, framed};
ghost use Rattle.run_step.specs.Sound.{RoundSound};
ghost use Rattle.run_answers.specs.Sizes.{answer_bytes};
ghost use Rattle.run_frame.specs.Ends.{commit_limit, end_kinds, end_number, most_commits};

use format_layout::round::Round;
use spec_language::answers;

// Why a frame ended: all steps made, nothing in hand, a step refused, no room for a further commit.
#[derive(Clone, Copy, PartialEq, Eq, Debug, Drop)]
pub enum End {
    AllMade = 0,
    Idle = 1,
    Refused = 2,
    NoRoom = 3,
}

// What stands above the steps made, and above the commits written.
const STEPS: u64 = 4294967296;

const COMMITS: u64 = 72057594037927936;
// The commits that an answer has room to count, and the bytes of each.
const MOST_COMMITS: usize = 16777215;

const COMMIT_BYTES: usize = run_answers::ANSWER_BYTES;
// The kinds of a step's answer.
const KINDS: u64 = spec_language::answers::PLAYER;

// Why a run of steps ended, the steps made and the commits written, in one answer.
pub fn packed_end(why: u64, made: u32, written: u32) -> u64
    requires { (why < end_kinds) × (written < commit_limit) }
    ensures { result ≡ frame_said why made written }
{
    why * COMMITS + u64::from(written) * STEPS + u64::from(made)
}

// The answer of a frame.
fn frame_answer(why: End, made: u32, written: u32) -> u64
    requires { written < commit_limit }
    ensures { result ≡ frame_said (end_number why) made written }
{
    packed_end(why as u64, made, written)
}

// How many commits so many bytes have room for.
#[tactic(auto, using(lib_base::proofs::Pick::branches), unfolding(crate::specs::Framed::room_for))]
fn room_of(bytes: usize) -> u32
    ensures value { result ≡ room_for bytes }
    ensures upper_bound { (result < commit_limit) × (result * answer_bytes ≤ bytes) }
{
    (bytes / COMMIT_BYTES).min(MOST_COMMITS) as u32
}

// A step's answer after n commits: a commit's is written, any other leaves the buffer. The commits written then.
#[tactic(auto, using(lib_base::proofs::Pick::branches), unfolding(crate::specs::Frame::count_after, crate::specs::Frame::commits_after))]
fn note(commits: &mut [u8], n: u32, answer: u64) -> u32
    requires { (n * answer_bytes + answer_bytes ≤ length commits.old) × (n < most_commits) }
    ensures value { result ≡ count_after answer n }
    ensures commits_after { commits.new ≡ commits_after answer n commits.old }
{
    if answer % KINDS == spec_language::answers::COMMITTED {
        run_answers::put_answer(commits, n as usize, answer);
        return n + 1;
    }
    n
}

// Of a foreign table or round no step is made.
#[tactic(auto, using(lib_base::proofs::Pick::branches), unfolding(crate::specs::Frame::refused_frame))]
fn refused_of(room: u32) -> u64
    ensures { result ≡ refused_frame room }
{
    if room == 0 {
        return frame_answer(End::NoRoom, 0, 0);
    }
    frame_answer(End::Refused, 0, 0)
}

// Why a frame ends that would end for `why`: idle where nothing runs and nothing waits.
#[tactic(auto, using(crate::proofs::Laws::runs_on, crate::proofs::Laws::waits_on, crate::proofs::Laws::rests))]
fn idle_or(table: &[u8], round: &[u8], why: End) -> End
    requires { RoundSound table.now round.now }
    ensures { end_number result ≡ idle_or table.now round.now (end_number why) }
{
    if lib_word::get_word(round, Round::RUNNING) != 0
        || lib_word::get_word(round, Round::WAITING) != 0
    {
        return why;
    }
    End::Idle
}

// Table and round are judged, steps are asked for, and there is room for so many commits.
fn frame_in(table: &[u8], round: &mut [u8], steps: u32, room: u32, commits: &mut [u8]) -> u64
    requires { RoundSound table.now round.old × (room < commit_limit) × (room * answer_bytes ≤ length commits.old) × (steps ≢ 0) }
    ensures { framed result round.new commits.new
        ≡ frame_from table.now room steps 0 0 round.old commits.old }
{
    let mut left = steps;
    let mut written = 0;
    while left > 0 {
        if room <= written {
            return frame_answer(idle_or(&*table, round, End::NoRoom), steps - left, written);
        }
        let stop = run_burst::burst_on(&*table, round, left);
        let answer = stop.answer;
        left = stop.left;
        if answer == spec_language::answers::IDLE {
            return frame_answer(End::Idle, steps - left, written);
        }
        if answer == answers::FOREIGN {
            return frame_answer(End::Refused, steps - left, written);
        }
        written = note(commits, written, answer);
    }
    frame_answer(idle_or(&*table, round, End::AllMade), steps, written)
}

// Up to so many steps, until one is idle or refused or there is no room for a further commit: how many were made, the
// commits written, and why it ended, idle wherever nothing is left in hand.
pub fn frame_at(table: &[u8], round: &mut [u8], steps: u32, commits: &mut [u8]) -> u64
    ensures { framed result round.new commits.new ≡ frame_on table.now round.old steps commits.old }
{
    if steps == 0 {
        return frame_answer(End::AllMade, 0, 0);
    }
    let room = room_of(commits.len());
    if run_validate::is_ours(&*table, round) {
        return frame_in(&*table, round, steps, room, commits);
    }
    refused_of(room)
}
