// This room has no code. Its specs/ hold the laws of loops over an array: one for every fold, and one for every filling.

#![tactic(auto)]
