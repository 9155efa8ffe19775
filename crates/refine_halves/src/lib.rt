// Definitions and theorems only: the joined sheet's round and the rounds of its two sheets, of the exported functions.
// They stand in specs/.

#![tactic(auto)]
