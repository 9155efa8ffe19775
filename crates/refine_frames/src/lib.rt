// A frame is the steps that it makes: statements in specs/, their proofs in proofs/. No code.

#![tactic(auto)]
