// Definitions and theorems only: what the reader leaves in the draft is the program that the grammar says. They stand
// in specs/.

#![tactic(auto)]
