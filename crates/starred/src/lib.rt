// The starred decisions of document 01, "Decisions to check against", and its two starred times: one table, under one claim about the
// definitions that the crates `ticks` and `types` are held to. The table and the claim are in specs/Table.antt, and no code is here.
// The checker computes the whole table; the decisions that are not starred are run and compared by the program `vectors_types`.
#![tactic(auto)]
