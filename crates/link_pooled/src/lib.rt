// Definitions and theorems only: one sheet from two, and what its board shows. They stand in specs/.

#![tactic(auto)]
