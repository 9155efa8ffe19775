// Arithmetic on 32-bit words that stand for signed numbers. Each result is the exact value, brought to 32 bits.

#![tactic(auto)]

ghost use Rattle.std.specs.Prelude.{◌≡◌, ◌+ℤ◌, ◌-ℤ◌, ◌*ℤ◌, int_lt};
ghost use Rattle.lib_arith.specs.Exact.{signed, wrapped};
ghost use Rattle.lib_arith.specs.Functions.{floor_z};

// 2^31: this word and those above stand for negative numbers.
pub const NEGATIVE: u32 = 2147483648;

// 2^32 - 1: the word of -1. The magnitude of a negative word w is MINUS_ONE - w + 1.
pub const MINUS_ONE: u32 = 4294967295;

// The whole number that a word stands for, in 64 bits.
pub fn whole(a: u32) -> i64
    ensures { result ≡ signed a }
{
    i64::from(a.cast_signed())
}

pub fn add(a: u32, b: u32) -> u32
    ensures { result ≡ wrapped (signed a +ℤ signed b) }
{
    a.wrapping_add(b)
}

pub fn subtract(a: u32, b: u32) -> u32
    ensures { result ≡ wrapped (signed a -ℤ signed b) }
{
    a.wrapping_sub(b)
}

pub fn multiply(a: u32, b: u32) -> u32
    ensures { result ≡ wrapped (signed a *ℤ signed b) }
{
    a.wrapping_mul(b)
}

// M-102: a quotient with a fraction goes to the next whole number below; by zero it gives 0, and the least number by -1
// gives the least number. Of different signs, the quotient of the magnitudes is rounded up, (|a| + |b| - 1) / |b|, and
// the sign put back.
pub fn divide(a: u32, b: u32) -> u32
    ensures { result ≡ wrapped (floor_z (signed a) (signed b)) }
{
    if b == 0 {
        return 0;
    }
    if a < NEGATIVE {
        if b < NEGATIVE {
            return a / b;
        }
        return 0u32.wrapping_sub((a + (MINUS_ONE - b)) / (MINUS_ONE - b + 1));
    }
    if b < NEGATIVE {
        return 0u32.wrapping_sub((MINUS_ONE - a + b) / b);
    }
    (MINUS_ONE - a + 1) / (MINUS_ONE - b + 1)
}

// Whether a is below b as signed numbers.
pub fn below(a: u32, b: u32) -> bool
    ensures { result ≡ int_lt (signed a) (signed b) }
{
    a.cast_signed() < b.cast_signed()
}
