// This room has no code. Its specs/ hold laws that belong to no one room: each is stated once and cited from above.

#![tactic(auto)]
