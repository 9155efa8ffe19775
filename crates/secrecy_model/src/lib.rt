// Definitions and theorems only: the rule for a player with changes of sheets. They stand in specs/.

#![tactic(auto)]
