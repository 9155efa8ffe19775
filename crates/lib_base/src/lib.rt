// Definitions and laws only: how a definition of specs/ branches on a test, and general facts about lists.

#![tactic(auto)]
