// Definitions and theorems only: the rule for a player with changes of sheets, of the numbers that the exported
// functions give. They stand in specs/.

#![tactic(auto)]
