// The signature of the language, for the code (specs/Signature.antt): the functions' numbers, arities and levels.

#![tactic(auto)]

ghost use Rattle.std.specs.Prelude.{◌≡◌, ◌≤◌};
ghost use Rattle.lib_signature.specs.Signature.{arity, level};

pub mod functions;
pub mod levels;

// How many arguments the function with the number f needs.
#[tactic(auto, using(lib_base::proofs::Pick::branches), unfolding(crate::specs::Signature::arity))]
pub fn arity_of(f: u8) -> usize
    ensures value { result ≡ arity f }
    ensures upper_bound { result ≤ 3 }
{
    match f {
        functions::NOT => 1,
        functions::IF => 3,
        _ => 2,
    }
}

// The level of a two-sided operator by its number, 1 for the tightest; 0 for another number.
pub fn level_of(f: u8) -> u64
    ensures { result ≡ level f }
{
    match f {
        functions::OR => levels::DISJUNCTION,
        functions::AND => levels::CONJUNCTION,
        functions::EQUAL | functions::UNEQUAL => levels::EQUALITY,
        functions::ABOVE | functions::AT_LEAST | functions::BELOW | functions::AT_MOST =>
            levels::ORDERING,
        functions::ADD | functions::SUBTRACT => levels::SUM,
        functions::MULTIPLY | functions::DIVIDE => levels::PRODUCT,
        _ => 0,
    }
}
