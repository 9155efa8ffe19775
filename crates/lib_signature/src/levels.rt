// The precedence levels of two-sided operators, the tightest first, for the code. Level 0 is `!` and the
// primaries.
pub const PRODUCT: u64 = 1;

pub const SUM: u64 = 2;

pub const ORDERING: u64 = 3;

pub const EQUALITY: u64 = 4;

pub const CONJUNCTION: u64 = 5;

pub const DISJUNCTION: u64 = 6;
