// Statements and theorems only: the whole claim, in one record (specs/Claims.antt), and one theorem that proves it.

#![tactic(auto)]
