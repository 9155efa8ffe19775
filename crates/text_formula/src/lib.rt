// Formulas as texts and what they answer (02, M-105): definitions in specs/; the tokens, for the code, here.

#![tactic(auto)]

pub mod tokens;
