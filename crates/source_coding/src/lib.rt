// What the numbers stand for that the code of this room hands on: signs, kinds of faults, faults as one word.

#![tactic(auto)]

pub mod faults;
pub mod limits;
pub mod signs;
