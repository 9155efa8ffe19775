// The promise to an app whose phones share an order: statements in specs/, their proofs in proofs/. No code.

#![tactic(auto)]
