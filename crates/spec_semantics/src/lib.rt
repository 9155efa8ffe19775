// Definitions and theorems only: the meaning of one event. They stand in specs/.

#![tactic(auto)]
