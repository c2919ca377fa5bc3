// Demand 3, from the bytes of an accepted plan to the slots that a partition receives. No code that anyone calls: it is the promise.
#![tactic(auto)]
