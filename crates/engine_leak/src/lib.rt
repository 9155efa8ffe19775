// Definitions and theorems only: `leak` answers 0 for a player exactly under M-107's condition, and then the rule for
// this player holds with no condition left.

#![tactic(auto)]
