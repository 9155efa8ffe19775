// Definitions and theorems only: calls and changes of sheets on the bytes against the model engine. They stand in
// specs/ and proofs/.

#![tactic(auto)]
