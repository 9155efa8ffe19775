// A delivery is the steps that it makes and its arrival: statements in specs/, their proofs in proofs/. No code.

#![tactic(auto)]
