// Definitions and proofs only: a sheet back as text, and that the text is read to the very sheet.

#![tactic(auto)]
