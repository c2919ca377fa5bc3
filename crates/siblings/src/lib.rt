// The switch of document 02, request 12: what it changes, and that it changes nothing when it is off. No code: the promises are those that a planner asks for
// before turning it on.
#![tactic(auto)]
