// Definitions and theorems only: on a sheet that `agree` answers 0 for, demand 3's last sentence holds with no
// condition left; and an example of a sheet on which two phones differ.

#![tactic(auto)]
