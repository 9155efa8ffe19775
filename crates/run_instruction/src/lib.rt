// One instruction on the round's bytes (01 "Handlers and steps"), by its word, operation * 256 + slot. The depth of the
// evaluation stack is handed in and answered by value: its word in the round is the caller's to write.

#![tactic(auto)]

ghost use Rattle.std.specs.Prelude.{◌≡◌, ◌+◌, ◌≤◌, ◌<◌, length};
ghost use Rattle.lib_word.specs.Word.{get};
ghost use Rattle.lib_arith.specs.Functions.{result_of, over};
ghost use Rattle.run_instruction.specs.Stack.{noted};
ghost use Rattle.run_instruction.specs.Instruction.{transfer};
ghost use Rattle.run_instruction.specs.Execution.{left, pushed_on, popped_to, applied_one, applied_two, applied_three, moved_in, executed};
ghost use Rattle.format_layout.specs.Sizes.{round_bytes, round_words};
ghost use Rattle.spec_language.specs.Limits.{stack_depth};

use format_layout::operations;
use format_layout::round::Round;
use lib_signature::functions;
use spec_language::limits;

mod codes;

const FULL: u32 = limits::STACK as u32;

// The answer of an instruction that may not run: 2^32 - 1, a depth that no stack has. A compiler sees that no depth
// that an instruction leaves is as large, so that the answer is not looked at again.
pub const NONE: u32 = 4294967295;

// With its depth added, these are the words of the stack's top, and of the two values below it.
const TOP: usize = Round::STACK - 1;

const SECOND: usize = Round::STACK - 2;

const THIRD: usize = Round::STACK - 3;

// Word `from` of the round goes to word `to`.
fn transfer_word(round: &mut [u8], depth: u32, from: usize, to: usize) -> u32
    requires { (round_bytes ≤ length round.old) × (from < round_words) × (to < round_words) }
    ensures { left result round.new ≡ left depth (transfer round.old from to) }
{
    let value = lib_word::get_word(round, from);
    lib_word::put_word(round, to, value);
    depth
}

// A value goes on top of the stack; not on a full one.
fn push(round: &mut [u8], depth: u32, value: u32) -> u32
    requires { round_bytes ≤ length round.old }
    ensures { left result round.new ≡ pushed_on round.old depth value }
{
    if depth < FULL {
        lib_word::put_word(round, Round::STACK + (depth as usize), value);
        return depth + 1;
    }
    NONE
}

fn push_word(round: &mut [u8], depth: u32, from: usize) -> u32
    requires { (round_bytes ≤ length round.old) × (from < round_words) }
    ensures { left result round.new ≡ pushed_on round.old depth (get round.old from) }
{
    let value = lib_word::get_word(round, from);
    push(round, depth, value)
}

// The stack's top goes to word `to`; not that of an empty one.
fn pop(round: &mut [u8], depth: u32, to: usize) -> u32
    requires { (round_bytes ≤ length round.old) × (depth ≤ stack_depth) × (to < round_words) }
    ensures { left result round.new ≡ popped_to round.old depth to }
{
    if depth > 0 {
        let value = lib_word::get_word(round, TOP + (depth as usize));
        lib_word::put_word(round, to, value);
        return depth - 1;
    }
    NONE
}

// Function f on the words a, b and c: its word, and the mark set where it runs over.
fn call_on(round: &mut [u8], f: u8, a: u32, b: u32, c: u32) -> u32
    requires { round_bytes ≤ length round.old }
    ensures r_value { result ≡ result_of f a b c }
    ensures round_after { round.new ≡ noted round.old (over f a b c) }
{
    let answer = lib_functions::apply(f, a, b, c);
    if answer < lib_functions::OVER {
        return answer as u32;
    }
    lib_word::put_word(round, Round::MARK, 1);
    (answer - lib_functions::OVER) as u32
}

// Function f takes its arguments, one, two or three, from the stack, and puts its result.
fn apply_one(round: &mut [u8], depth: u32, f: u8) -> u32
    requires { (round_bytes ≤ length round.old) × (depth ≤ stack_depth) }
    ensures { left result round.new ≡ applied_one round.old depth f }
{
    if depth < 1 {
        return NONE;
    }
    let x = lib_word::get_word(round, TOP + (depth as usize));
    let value = call_on(round, f, x, 0, 0);
    lib_word::put_word(round, TOP + (depth as usize), value);
    depth
}

fn apply_two(round: &mut [u8], depth: u32, f: u8) -> u32
    requires { (round_bytes ≤ length round.old) × (depth ≤ stack_depth) }
    ensures { left result round.new ≡ applied_two round.old depth f }
{
    if depth < 2 {
        return NONE;
    }
    let x = lib_word::get_word(round, SECOND + (depth as usize));
    let y = lib_word::get_word(round, TOP + (depth as usize));
    let value = call_on(round, f, x, y, 0);
    lib_word::put_word(round, SECOND + (depth as usize), value);
    depth - 1
}

fn apply_three(round: &mut [u8], depth: u32, f: u8) -> u32
    requires { (round_bytes ≤ length round.old) × (depth ≤ stack_depth) }
    ensures { left result round.new ≡ applied_three round.old depth f }
{
    if depth < 3 {
        return NONE;
    }
    let x = lib_word::get_word(round, THIRD + (depth as usize));
    let y = lib_word::get_word(round, SECOND + (depth as usize));
    let z = lib_word::get_word(round, TOP + (depth as usize));
    let value = call_on(round, f, x, y, z);
    lib_word::put_word(round, THIRD + (depth as usize), value);
    depth - 2
}

// An operation that applies no function, on slot k: off, on, and those that move a word.
fn move_on(round: &mut [u8], operation: u32, k: usize, constant: u32, depth: u32) -> u32
    requires { (round_bytes ≤ length round.old) × (depth ≤ stack_depth) }
    ensures { left result round.new ≡ moved_in round.old operation k constant depth }
{
    if k >= limits::BEHAVIOURS {
        return NONE;
    }
    match operation {
        operations::OFF => depth,
        operations::ON => depth,
        operations::COPY => transfer_word(round, depth, Round::STORE + k, Round::SCRATCH + k),
        operations::RESTORE => transfer_word(round, depth, Round::SCRATCH + k, Round::STORE + k),
        operations::PUSH => push(round, depth, constant),
        operations::LOAD => push_word(round, depth, Round::STORE + k),
        operations::FETCH => push_word(round, depth, Round::SCRATCH + k),
        operations::SAVE => pop(round, depth, Round::SCRATCH + k),
        operations::DEFER => pop(round, depth, Round::DEFERRED + k),
        operations::MOVE => transfer_word(round, depth, Round::DEFERRED + k, Round::SCRATCH + k),
        _ => NONE,
    }
}

// The instruction of that word and constant, on a stack of that depth: the depth after it, or NONE where it may not
// run. A function's application is told by operation and function together; each instruction asks for its own stack.
pub fn execute(round: &mut [u8], code: u32, constant: u32, depth: u32) -> u32
    requires { (round_bytes ≤ length round.old) × (depth ≤ stack_depth) }
    ensures { left result round.new ≡ executed round.old code constant depth }
{
    match code {
        codes::OR => apply_two(round, depth, functions::OR),
        codes::AND => apply_two(round, depth, functions::AND),
        codes::NOT => apply_one(round, depth, functions::NOT),
        codes::ADD => apply_two(round, depth, functions::ADD),
        codes::SUBTRACT => apply_two(round, depth, functions::SUBTRACT),
        codes::MULTIPLY => apply_two(round, depth, functions::MULTIPLY),
        codes::DIVIDE => apply_two(round, depth, functions::DIVIDE),
        codes::ABOVE => apply_two(round, depth, functions::ABOVE),
        codes::AT_LEAST => apply_two(round, depth, functions::AT_LEAST),
        codes::BELOW => apply_two(round, depth, functions::BELOW),
        codes::AT_MOST => apply_two(round, depth, functions::AT_MOST),
        codes::EQUAL => apply_two(round, depth, functions::EQUAL),
        codes::UNEQUAL => apply_two(round, depth, functions::UNEQUAL),
        codes::IF => apply_three(round, depth, functions::IF),
        _ => move_on(
            round,
            code / operations::SLOTS,
            (code % operations::SLOTS) as usize,
            constant,
            depth,
        ),
    }
}
