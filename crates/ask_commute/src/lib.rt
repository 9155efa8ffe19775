// Definitions and theorems only: where two events meet, as far as one behaviour goes, and that those that do not meet
// commute there. They stand in specs/ and proofs/.

#![tactic(auto)]
