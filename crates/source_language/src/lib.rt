// Definitions and proofs only: a sheet as text, its grammar apart from its reader, and the sheet that it means.

#![tactic(auto)]
