// Evaluating a draft: the nodes of an expression on a stack of 64 words, and the values of a fresh round.

#![tactic(auto)]

ghost use Rattle.std.specs.Prelude.{◌≡◌, ◌+◌, ◌-◌, ◌%◌, ◌<◌, ◌≤◌, map};
ghost use Rattle.draft_form.specs.Draft.{moved, used_by};
ghost use Rattle.back_fresh.specs.Evaluate.{push_depth, push_stack, look, argument, applied_at, apply_depth, apply_stack, node_depth, node_stack, evaluated};
ghost use Rattle.back_fresh.specs.Evaluate.{entry_value, starts_on, turn_on, fresh_on};
ghost use Rattle.draft_form.specs.Sizes.{draft_nodes};
ghost use Rattle.spec_language.specs.Limits.{behaviour_limit, stack_depth};

use draft_form::{Draft, layout};
use spec_language::limits;

// A value of each behaviour.
type Values = [u32; limits::BEHAVIOURS];
// The words of the stack, from its lowest on.
type Stack = [u32; limits::STACK];
// A function's number is the lowest byte of its node.
const BYTE: u32 = lib_word::BYTE_VALUES;

// The word w on the stack, of depth k; a full stack stays as it is. Its new depth.
#[tactic(auto, using(lib_base::proofs::Pick::branches))]
fn push(stack: &mut Stack, k: usize, w: u32) -> usize
    requires { k ≤ stack_depth }
    ensures value { result ≡ push_depth k }
    ensures stack_after { stack.new ≡ push_stack stack.old k w }
    ensures upper_bound { result ≤ stack_depth }
{
    if k < limits::STACK {
        stack[k] = w;
        return k + 1;
    }
    k
}

// The value of name j; 0 past the last.
#[tactic(auto, using(lib_base::proofs::Pick::branches))]
fn name_value(values: &Values, j: u32) -> u32
    ensures { result ≡ look values.now j }
{
    values.get(j as usize).copied().unwrap_or(0)
}

// Argument j of the n at place i of the stack; 0 for one that is not needed.
#[tactic(auto, using(lib_base::proofs::Pick::branches))]
fn argument_at(stack: &Stack, i: usize, n: usize, j: usize) -> u32
    requires { (i + n ≤ stack_depth) × (j < stack_depth) }
    ensures { result ≡ argument stack.now i n j }
{
    stack[i..i + n].get(j).copied().unwrap_or(0)
}

// Function f on its n arguments at place i of the stack.
fn apply_at(f: u8, n: usize, stack: &Stack, i: usize) -> u32
    requires { i + n ≤ stack_depth }
    ensures { result ≡ applied_at f n stack.now i }
{
    let a = argument_at(stack, i, n, 0);
    let b = argument_at(stack, i, n, 1);
    let c = argument_at(stack, i, n, 2);
    lib_functions::word_of(f, a, b, c)
}

// Function f takes its n arguments from the stack and puts its result; without them the stack stays as it is. Its new
// depth.
#[tactic(auto, using(lib_base::proofs::Pick::branches))]
fn apply_top(f: u8, n: usize, stack: &mut Stack, k: usize) -> usize
    requires { (0 < n) × (k ≤ stack_depth) }
    ensures value { result ≡ apply_depth n k }
    ensures stack_after { stack.new ≡ apply_stack f n stack.old k }
    ensures upper_bound { result ≤ stack_depth }
{
    if k < n {
        return k;
    }
    stack[k - n] = apply_at(f, n, stack, k - n);
    k - n + 1
}

// A node: a constant or a name's value is put on the stack, a function applied. The new depth.
#[tactic(auto, using(lib_base::proofs::Pick::branches), unfolding(crate::specs::Evaluate::node_depth, crate::specs::Evaluate::node_stack))]
fn eval_node(node: u64, values: &Values, stack: &mut Stack, k: usize) -> usize
    requires { k ≤ stack_depth }
    ensures value { result ≡ node_depth node k }
    ensures stack_after { stack.new ≡ node_stack values.now node stack.old k }
    ensures upper_bound { result ≤ stack_depth }
{
    let w = draft_form::node_word(node);
    match draft_form::node_tag(node) {
        layout::CONSTANT => push(stack, k, w),
        layout::NAME => push(stack, k, name_value(values, w)),
        _ => {
            let f = (w % BYTE) as u8;
            apply_top(f, lib_signature::arity_of(f), stack, k)
        }
    }
}

// The value of the expression of these nodes of the draft, as behaviour b uses them; `values` those of names.
fn eval_nodes(draft: &Draft, b: usize, nodes: &[u64], values: &Values) -> u32
    requires { b < behaviour_limit }
    ensures { result ≡ evaluated values.now (map (moved draft.now b) nodes.now) }
{
    let mut stack = [0u32; limits::STACK];
    let mut k = 0;
    for node in nodes {
        k = eval_node(
            draft_form::moved_node(draft, b, *node),
            values,
            &mut stack,
            k,
        );
    }
    stack[0]
}

// The value of the expression of behaviour i with the entry.
#[tactic(auto, using(lib_base::proofs::Pick::branches), unfolding(crate::specs::Evaluate::entry_value))]
fn eval_entry(draft: &Draft, i: usize, values: &Values, entry: u64) -> u32
    requires { i < behaviour_limit }
    ensures { result ≡ entry_value (used_by draft.now i) values.now entry }
{
    let start = (entry / layout::KINDS % layout::FIRSTS) as usize;
    let count = (entry / layout::COUNTS) as usize;
    if layout::NODES < start + count {
        return 0;
    }
    eval_nodes(draft, i, &draft[start..start + count], values)
}

// The start values of n behaviours.
fn start_values(draft: &Draft, n: usize) -> Values
    requires { n ≤ behaviour_limit }
    ensures { result ≡ starts_on draft.now n }
{
    let mut values = [0u32; limits::BEHAVIOURS];
    for i in 0..n {
        values[i] = (draft[layout::STARTS + i] % layout::WORD) as u32;
    }
    values
}

// Behaviour i takes the value of its expression on the event.
#[tactic(auto, using(lib_base::proofs::Pick::branches), unfolding(crate::specs::Evaluate::turn_on))]
fn take_turn(draft: &Draft, event: usize, i: usize, values: &mut Values)
    ensures { values.new ≡ turn_on draft.now event i values.old }
{
    if i < limits::BEHAVIOURS {
        values[i] = eval_entry(draft, i, values, draft_form::entry_of(draft, event, i));
    }
}

// The values of a fresh round of n behaviours: the start values, and then those of the behaviours of the order, in
// turn, on the event.
pub fn fresh_values(
    draft: &Draft,
    n: usize,
    event: usize,
    order: &[u8],
) -> [u32; limits::BEHAVIOURS]
    requires { n ≤ behaviour_limit }
    ensures { result ≡ fresh_on draft.now n event order.now }
{
    let mut values = start_values(draft, n);
    for i in order {
        take_turn(draft, event, *i as usize, &mut values);
    }
    values
}
