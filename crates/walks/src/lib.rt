// This room has no code. Its specs/ hold what proofs share that walk a function by hand.

#![tactic(auto)]
