// Definitions and theorems only: specs/.

#![tactic(auto)]
