// The functions by their numbers, on 32-bit words that stand for signed numbers. 01 "Arithmetic". Each answers
// its word, and 2^32 more where it ran over (02, M-104).

#![tactic(auto)]

ghost use Rattle.std.specs.Prelude.{not, ◌&&◌, ◌||◌, ◌≡◌};
ghost use Rattle.std.specs.Int.Signed.{lt_z};
ghost use Rattle.lib_base.specs.Basics.{pick};
ghost use Rattle.lib_arith.specs.Exact.{signed};
ghost use Rattle.lib_arith.specs.Marked.{reported};
ghost use Rattle.lib_arith.specs.Functions.{is_true, truth, result_of};
ghost use Rattle.lib_arith.specs.Marked.{marked_result};

use lib_signature::functions;

// How much more than its word an application answers that ran over.
pub const OVER: u64 = lib_overflow::OVER;

// What a test gives: 1 or 0.
fn truth(t: bool) -> u64
    ensures { result ≡ reported (truth t) }
{
    if t { 1 } else { 0 }
}

// `||`
fn either(a: u32, b: u32) -> u64
    ensures { result ≡ reported (truth (is_true (signed a) || is_true (signed b))) }
{
    if a == 0 { truth(b != 0) } else { 1 }
}

// `&&`
fn both(a: u32, b: u32) -> u64
    ensures { result ≡ reported (truth (is_true (signed a) && is_true (signed b))) }
{
    if a == 0 { 0 } else { truth(b != 0) }
}

// `!`
fn opposite(a: u32) -> u64
    ensures { result ≡ reported (truth (not (is_true (signed a)))) }
{
    truth(a == 0)
}

// `==`: neither is below the other.
fn same(a: u32, b: u32) -> u64
    ensures { result ≡ reported (truth (not (lt_z (signed a) (signed b)) && not (lt_z (signed b) (signed a)))) }
{
    truth(a == b)
}

// `!=`: one is below the other.
fn differ(a: u32, b: u32) -> u64
    ensures { result ≡ reported (truth (lt_z (signed a) (signed b) || lt_z (signed b) (signed a))) }
{
    truth(a != b)
}

// `if`
fn choose(a: u32, b: u32, c: u32) -> u64
    ensures { result ≡ reported (pick (is_true (signed a)) (signed b) (signed c)) }
{
    if a == 0 { c as u64 } else { b as u64 }
}

// The function with the number f on the words a, b and c; it looks only at those that it needs. Its word, and 2^32 more
// where it ran over. A number that is no function's gives 0.
pub fn apply(f: u8, a: u32, b: u32, c: u32) -> u64
    ensures { result ≡ marked_result f a b c }
{
    match f {
        functions::OR => either(a, b),
        functions::AND => both(a, b),
        functions::NOT => opposite(a),
        functions::ADD => lib_overflow::marked_sum(a, b),
        functions::SUBTRACT => lib_overflow::marked_difference(a, b),
        functions::MULTIPLY => lib_overflow::marked_product(a, b),
        functions::DIVIDE => lib_overflow::quotient(a, b),
        functions::ABOVE => truth(lib_arith::below(b, a)),
        functions::AT_LEAST => truth(!lib_arith::below(a, b)),
        functions::BELOW => truth(lib_arith::below(a, b)),
        functions::AT_MOST => truth(!lib_arith::below(b, a)),
        functions::EQUAL => same(a, b),
        functions::UNEQUAL => differ(a, b),
        functions::IF => choose(a, b, c),
        _ => 0,
    }
}

// Its word alone.
pub fn word_of(f: u8, a: u32, b: u32, c: u32) -> u32
    ensures { result ≡ result_of f a b c }
{
    (apply(f, a, b, c) % lib_word::WORD_VALUES) as u32
}
