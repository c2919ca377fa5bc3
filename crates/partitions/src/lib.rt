// Demand 3 for a plan value that fits, with no bytes of a plan file: the case that it speaks of, its notions one by one, and what follows from them. No code:
// the crate `guarantee` adds the bytes, and a report on a run can be stated by these notions alone.
#![tactic(auto)]
