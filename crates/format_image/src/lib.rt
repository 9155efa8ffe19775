// Definitions and laws only: the table of a program, word by word. They stand in specs/.

#![tactic(auto)]
