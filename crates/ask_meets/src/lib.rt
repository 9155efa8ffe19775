// What two events may meet at, on the draft of a program (layout: draft_form, specs/Draft.antt): what a behaviour
// depends on, whether a handler adds to its behaviour, and what each event is strict about (specs/Meeting.antt). Time:
// a pass over the nodes, and n * n operations on words for the chains of n behaviours.

#![tactic(auto)]

ghost use Rattle.std.specs.Prelude.{◌≡◌, not, ◌&&◌, ◌||◌, ℕ, ◌+◌, ◌≤◌, ◌<◌, get_or, drop, eqb, leb};
ghost use Rattle.lib_base.specs.Basics.{pick};
ghost use Rattle.lib_bits.specs.Bits.{bit, Gathers};
ghost use Rattle.draft_form.specs.Draft.{entry_of};
ghost use Rattle.draft_form.specs.Entry.{entry_kind, entry_start, entry_count};
ghost use Rattle.check_faults.specs.Checks.{RowsInside, AllInside};
ghost use Rattle.check_reads.specs.Sets.{RowsBy};
ghost use Rattle.ask_leak.specs.Leaking.{names_any};
ghost use Rattle.ask_meets.specs.Marks.{name_mark, one_mark, two_mark, if_mark, push_mark, applied_mark, mark_step};
ghost use Rattle.ask_meets.specs.Marks.{marks_packed};
ghost use Rattle.ask_meets.specs.Strict.{cone_on, mark_in, strict_at_on, strict_on, StrictSets};
ghost use Rattle.ask_meets.specs.Marking.{mark_number, mark_room, standing};
ghost use Rattle.draft_form.specs.Sizes.{draft_nodes};
ghost use Rattle.spec_language.specs.Limits.{behaviour_limit, event_limit};

use check_graph::ROW;
use check_reads::Sets;
use draft_form::{Draft, layout};
use lib_signature::functions;
use spec_language::limits;

// How an expression stands to a behaviour: it does not name it, names it, or adds to it.
#[derive(Clone, Copy, PartialEq, Eq, Debug, Drop)]
enum Mark {
    Apart,
    Names,
    Adds,
}

// The functions that a mark depends on.
const NOT: u32 = functions::NOT as u32;

const ADD: u32 = functions::ADD as u32;

const SUBTRACT: u32 = functions::SUBTRACT as u32;

const IF: u32 = functions::IF as u32;
// As many marks as the nodes of a formula put one on the other.
const ROOM: usize = 32;

// Of name j, toward behaviour b.
#[tactic(auto, using(lib_base::proofs::Pick::branches), unfolding(crate::specs::Marks::name_mark))]
fn name_mark(rows: &[u64; ROW], b: usize, j: u32) -> Mark
    requires { b < behaviour_limit }
    ensures { mark_number result ≡ name_mark (λ k. bit (get_or rows.now k 0) b) b j }
{
    let j = j as usize;
    if j == b {
        return Mark::Adds;
    }
    if j < limits::BEHAVIOURS {
        if lib_bits::contains(rows[j], b) {
            return Mark::Names;
        }
    }
    Mark::Apart
}

// Of `!`.
#[tactic(auto, using(lib_base::proofs::Pick::branches), unfolding(crate::specs::Marks::one_mark))]
fn one_mark(a: Mark) -> Mark
    ensures { mark_number result ≡ one_mark (mark_number a) }
{
    match a {
        Mark::Apart => Mark::Apart,
        _ => Mark::Names,
    }
}

// Of a function of two arguments.
#[tactic(auto, using(lib_base::proofs::Pick::branches), unfolding(crate::specs::Marks::two_mark))]
fn two_mark(f: u32, a: Mark, b: Mark) -> Mark
    ensures { mark_number result ≡ two_mark f (mark_number a) (mark_number b) }
{
    match (f, a, b) {
        (_, Mark::Apart, Mark::Apart) => Mark::Apart,
        (ADD | SUBTRACT, Mark::Adds, Mark::Apart) => Mark::Adds,
        (ADD, Mark::Apart, Mark::Adds) => Mark::Adds,
        _ => Mark::Names,
    }
}

// Of `if`.
#[tactic(auto, using(lib_base::proofs::Pick::branches), unfolding(crate::specs::Marks::if_mark))]
fn if_mark(c: Mark, a: Mark, b: Mark) -> Mark
    ensures { mark_number result ≡ if_mark (mark_number c) (mark_number a) (mark_number b) }
{
    match (c, a, b) {
        (Mark::Apart, Mark::Apart, Mark::Apart) => Mark::Apart,
        (Mark::Apart, Mark::Adds, Mark::Adds) => Mark::Adds,
        _ => Mark::Names,
    }
}

// Marks put one on the other: the first `depth` of them, the topmost last.
#[derive(Drop)]
struct Stack {
    marks: [Mark; ROOM],
    depth: usize,
    ghost within: { depth ≤ mark_room },
}

impl Stack {
    // A further mark; a full stack loses its lowest.
    #[tactic(auto, using(lib_base::proofs::Pick::branches), unfolding(crate::specs::Marks::push_mark, crate::specs::Marking::standing))]
    fn push(&mut self, mark: Mark)
        ensures { standing self.new.marks self.new.depth
            ≡ push_mark (standing self.old.marks self.old.depth) (mark_number mark) }
    {
        if self.depth == ROOM {
            self.marks.copy_within(1.., 0);
            self.marks[ROOM - 1] = mark;
            return;
        }
        self.marks[self.depth] = mark;
        self.depth += 1;
    }

    // The topmost mark is taken; an empty stack has that of what does not name the behaviour.
    #[tactic(auto, using(lib_base::proofs::Pick::branches), unfolding(crate::specs::Marking::standing))]
    fn pop(&mut self) -> Mark
        ensures mark { mark_number result ≡ get_or (standing self.old.marks self.old.depth) 0 0 }
        ensures left { standing self.new.marks self.new.depth ≡ drop 1 (standing self.old.marks self.old.depth) }
    {
        if self.depth == 0 {
            return Mark::Apart;
        }
        self.depth -= 1;
        self.marks[self.depth]
    }

    // Function f takes its arguments' marks and puts its own.
    #[tactic(auto, using(lib_base::proofs::Pick::branches), unfolding(crate::specs::Marks::applied_mark))]
    fn apply(&mut self, f: u32)
        ensures { standing self.new.marks self.new.depth ≡ applied_mark f (standing self.old.marks self.old.depth) }
    {
        let last = self.pop();
        let mark = match f {
            NOT => one_mark(last),
            IF => {
                let second = self.pop();
                if_mark(self.pop(), second, last)
            }
            _ => two_mark(f, self.pop(), last),
        };
        self.push(mark);
    }

    // Node x, toward behaviour b.
    #[tactic(auto, using(lib_base::proofs::Pick::branches), unfolding(crate::specs::Marks::mark_step))]
    fn read(&mut self, rows: &[u64; ROW], b: usize, x: u64)
        requires { b < behaviour_limit }
        ensures { standing self.new.marks self.new.depth
            ≡ mark_step (λ k. bit (get_or rows.now k 0) b) b (standing self.old.marks self.old.depth) x }
    {
        let w = draft_form::node_word(x);
        match draft_form::node_tag(x) {
            layout::NAME => self.push(name_mark(rows, b, w)),
            layout::APPLICATION => self.apply(w),
            _ => self.push(Mark::Apart),
        }
    }

    // Whether this mark is on top and those below it, if any, are of what does not name the behaviour.
    fn is_only(&self, mark: Mark) -> bool
        ensures { result ≡ eqb (marks_packed (standing self.now.marks self.now.depth)) (mark_number mark) }
    {
        if self.depth == 0 {
            return mark == Mark::Apart;
        }
        let top = self.depth - 1;
        for below in 0..top {
            if self.marks[below] != Mark::Apart {
                return false;
            }
        }
        self.marks[top] == mark
    }
}

// The marks that the expression of entry v of behaviour i leaves, toward i: one, where it is whole.
fn mark_in(d: &Draft, rows: &[u64; ROW], i: usize, v: u64) -> Stack
    requires { (i < behaviour_limit) × (entry_start v + entry_count v ≤ draft_nodes) }
    ensures { marks_packed (standing result.marks result.depth) ≡ mark_in d.now rows.now i v }
{
    let mut stack = Stack {
        marks: [Mark::Apart; ROOM],
        depth: 0,
    };
    for node in draft_form::nodes_of(d, v) {
        stack.read(rows, i, draft_form::moved_node(d, i, *node));
    }
    stack
}

// The set without j.
fn remove(set: u64, j: usize) -> u64
    requires { j < behaviour_limit }
    ensures { (i : ℕ) → bit result i ≡ bit set i && not (eqb i j) }
{
    if lib_bits::contains(set, j) {
        return set ^ (1u64 << j);
    }
    set
}

// The set with i or without it.
fn with_member(set: u64, i: usize, there: bool) -> u64
    requires { i < behaviour_limit }
    ensures { (j : ℕ) → bit result j ≡ pick (eqb i j) there (bit set j) }
{
    if there {
        return lib_bits::insert(set, i);
    }
    remove(set, i)
}

// What an event is strict about by its handler of i, whose entry is v.
fn strict_at(d: &Draft, rows: &[u64; ROW], n: usize, i: usize, v: u64) -> u64
    requires { (n ≤ behaviour_limit) × (i < behaviour_limit) × (entry_start v + entry_count v ≤ draft_nodes) }
    ensures { (e : ℕ) → v ≡ entry_of d.now e i → Gathers behaviour_limit result (strict_at_on d.now rows.now n e i) }
{
    let names = check_reads::add_rows(rows, check_reads::names_in(d, i, v), n);
    with_member(names, i, !mark_in(d, rows, i, v).is_only(Mark::Adds))
}

// The set with that, where the entry is a handler of one of the others.
fn add_strict(d: &Draft, rows: &[u64; ROW], n: usize, set: u64, cone: u64, i: usize, v: u64) -> u64
    requires { (n ≤ behaviour_limit) × (i < behaviour_limit) × (entry_start v + entry_count v ≤ draft_nodes) }
    ensures { (e : ℕ) → v ≡ entry_of d.now e i
        → Gathers behaviour_limit result (λ j. bit set j
        || ((bit cone i && leb 2 (entry_kind v)) && strict_at_on d.now rows.now n e i j)) }
{
    if lib_bits::contains(cone, i) {
        if draft_form::is_handler(v) {
            return lib_bits::union_of(set, strict_at(d, rows, n, i, v));
        }
    }
    set
}

// What event e is strict about, by its handlers of n behaviours that are in the cone.
fn strict_of(d: &Draft, rows: &[u64; ROW], n: usize, cone: u64, e: usize) -> u64
    requires { (n ≤ behaviour_limit) × (e ≤ event_limit) × RowsInside d.now e n }
    ensures { Gathers behaviour_limit result (strict_on d.now rows.now n cone e) }
{
    let mut set = 0;
    for i in 0..n {
        set = add_strict(d, rows, n, set, cone, i, draft_form::entry_of(d, e, i));
    }
    set
}

// What each of ev events is strict about, where the rows say what is named through passives.
pub fn fill_strict(d: &Draft, rows: &[u64; ROW], n: usize, cone: u64, ev: usize, strict: &mut Sets)
    requires { (n ≤ behaviour_limit) × (ev ≤ event_limit) × AllInside d.now ev n }
    ensures { StrictSets d.now rows.now n cone ev strict.new }
{
    for e in 0..ev {
        strict[e] = strict_of(d, rows, n, cone, e);
    }
}

// The names in each of n behaviours.
fn fill_all_names(d: &Draft, ev: usize, n: usize, rows: &mut [u64; ROW])
    requires { (ev ≤ event_limit) × (n ≤ behaviour_limit) × AllInside d.now ev n }
    ensures { RowsBy (names_any d.now ev) n rows.new }
{
    for i in 0..n {
        rows[i] = ask_leak::names_of(d, ev, i, n);
    }
}

// What behaviour b depends on, itself included.
pub fn cone_of(d: &Draft, ev: usize, n: usize, b: usize) -> u64
    requires { (ev ≤ event_limit) × (n ≤ behaviour_limit) × (b < n) × AllInside d.now ev n }
    ensures { Gathers n result (cone_on d.now ev n b) }
{
    let mut rows = [0u64; ROW];
    fill_all_names(d, ev, n, &mut rows);
    check_reads::close_rows(&mut rows, n);
    lib_bits::insert(rows[b], b)
}
