// The language of sheets and the programs that they mean, apart from any reader or engine: definitions in specs/, their
// numbers, for the code, here.

#![tactic(auto)]

pub mod answers;
pub mod limits;
pub mod refusals;
