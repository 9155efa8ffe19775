// Definitions and theorems only: on a sheet that `agree_for` answers 0 for, the behaviour has one value on both phones;
// where it answers 0 for each behaviour, their boards are equal.

#![tactic(auto)]
