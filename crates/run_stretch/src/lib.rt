// A stretch of a table's instructions on the round's bytes, up to the first that may not run: with the depth of the
// evaluation stack by value, and with its word in the round.

#![tactic(auto)]

ghost use Rattle.std.specs.Prelude.{◌≡◌, ◌+◌, ◌≤◌, ◌<◌, length};
ghost use Rattle.lib_word.specs.Word.{get};
ghost use Rattle.format_layout.specs.Round.{call_result};
ghost use Rattle.run_instruction.specs.Execution.{left};
ghost use Rattle.run_stretch.specs.Stretch.{stretch_from, executed_at, ran_to, ran_from};
ghost use Rattle.format_layout.specs.Sizes.{depth_word, round_bytes, table_bytes};
ghost use Rattle.spec_language.specs.Limits.{instruction_limit, stack_depth};

use format_layout::round::Round;
use format_layout::table;
use run_instruction::NONE;
use spec_language::refusals;

// How many instructions ran, and the stack's depth then.
#[derive(Clone, Copy, PartialEq, Eq, Debug, Drop)]
pub struct Ran {
    pub done: u32,
    pub depth: u32,
}

// Instruction k of the table, on a stack of that depth: the depth after it, or NONE where it may not run.
fn execute_at(table: &[u8], round: &mut [u8], k: usize, depth: u32) -> u32
    requires { (table_bytes ≤ length table.now) × (round_bytes ≤ length round.old) × (k < instruction_limit) × (depth ≤ stack_depth) }
    ensures { left result round.new ≡ executed_at table.now round.old k depth }
{
    let code = lib_word::get_word(table, table::CODE + k * 2);
    let constant = lib_word::get_word(table, table::CONSTANTS + k * 2);
    run_instruction::execute(round, code, constant, depth)
}

// The n instructions from k on, on a stack of that depth, up to the first that may not run. The depth's word stays.
pub fn run_from(table: &[u8], round: &mut [u8], k: usize, n: u32, depth: u32) -> Ran
    requires { (table_bytes ≤ length table.now) × (round_bytes ≤ length round.old) × (k + n ≤ instruction_limit) × (depth ≤ stack_depth) }
    ensures round_after { ran_to result.done result.depth round.new ≡ ran_from table.now k n depth round.old }
    ensures done_le_n { (result.done ≤ n) × (result.depth ≤ stack_depth) }
{
    let mut deep = depth;
    for done in 0..n {
        let after = execute_at(&*table, round, k + (done as usize), deep);
        if after == NONE {
            return Ran { done, depth: deep };
        }
        deep = after;
    }
    Ran {
        done: n,
        depth: deep,
    }
}

// The n instructions from k on, the depth's word read and written: 0, or 14 where one of them may not run.
pub fn execute_from(table: &[u8], round: &mut [u8], k: usize, n: u32) -> u32
    requires { (table_bytes ≤ length table.now) × (round_bytes ≤ length round.old) × (k + n ≤ instruction_limit)
        × (get round.old depth_word ≤ stack_depth) }
    ensures { call_result result round.new ≡ stretch_from table.now k n round.old }
{
    let depth = lib_word::get_word(round, Round::DEPTH);
    let ran = run_from(&*table, round, k, n, depth);
    let done = ran.done;
    lib_word::put_word(round, Round::DEPTH, ran.depth);
    if done < n {
        return refusals::FOREIGN;
    }
    0
}
