// Definitions and theorems only: what an instruction does, and that an event's code has the meaning of the event. They
// stand in specs/.

#![tactic(auto)]
