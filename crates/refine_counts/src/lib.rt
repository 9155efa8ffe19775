// The table that compile leaves tells its sheet's counts and ranks: the statement in specs/, its proof in proofs/. No
// code.

#![tactic(auto)]
