// Definitions and theorems only: the model engine, with changes of sheets, and what holds of its runs. They stand in
// specs/ and proofs/.

#![tactic(auto)]
