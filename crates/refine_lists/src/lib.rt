// Definitions and theorems only: demand 3 with changes of sheets, from sheets on. They stand in specs/.

#![tactic(auto)]
