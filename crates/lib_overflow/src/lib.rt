// The four functions that can run over, on 32-bit words that stand for signed numbers: the word of the exact result,
// and 2^32 more where the two differ or the divisor is zero (02, M-104).

#![tactic(auto)]

ghost use Rattle.std.specs.Prelude.{◌||◌, ◌≡◌, eqb, ◌+ℤ◌, ◌-ℤ◌, ◌*ℤ◌};
ghost use Rattle.lib_arith.specs.Exact.{signed, wrapped, beyond};
ghost use Rattle.lib_arith.specs.Marked.{packed, reported};
ghost use Rattle.lib_arith.specs.Functions.{floor_z};

use lib_arith::{MINUS_ONE, NEGATIVE, whole};

// The largest and the least number that a word stands for.
const LARGEST: i64 = 2147483647;

const LEAST: i64 = -2147483648;

// How much more than its word an application answers that ran over: 2 ^ 32.
pub const OVER: u64 = 4294967296;

fn mark(w: u32, m: bool) -> u64
    ensures { result ≡ packed w m }
{
    if m { OVER + (w as u64) } else { w as u64 }
}

// Whether an exact result is none that a word stands for, and so differs from the 32-bit one.
fn is_beyond(z: i64) -> bool
    ensures { result ≡ beyond z }
{
    (LARGEST < z) | (z < LEAST)
}

// Whether a quotient differs, the least number by -1, or its divisor is zero.
fn quotient_differs(a: u32, b: u32) -> bool
    ensures { result ≡ (eqb b 0 || beyond (floor_z (signed a) (signed b))) }
{
    if b == 0 {
        return true;
    }
    if b == MINUS_ONE {
        return a == NEGATIVE;
    }
    false
}

pub fn marked_sum(a: u32, b: u32) -> u64
    ensures { result ≡ reported (signed a +ℤ signed b) }
{
    mark(lib_arith::add(a, b), is_beyond(whole(a) + whole(b)))
}

pub fn marked_difference(a: u32, b: u32) -> u64
    ensures { result ≡ reported (signed a -ℤ signed b) }
{
    mark(lib_arith::subtract(a, b), is_beyond(whole(a) - whole(b)))
}

pub fn marked_product(a: u32, b: u32) -> u64
    ensures { result ≡ reported (signed a *ℤ signed b) }
{
    mark(lib_arith::multiply(a, b), is_beyond(whole(a) * whole(b)))
}

pub fn quotient(a: u32, b: u32) -> u64
    ensures { result ≡ packed (wrapped (floor_z (signed a) (signed b))) (eqb b 0 || beyond (floor_z (signed a) (signed b))) }
{
    mark(lib_arith::divide(a, b), quotient_differs(a, b))
}
