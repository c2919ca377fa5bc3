// One parent and its children over time, as plain sequences: the slots that a parent may give, what each child has left and is charged, and that the
// slots offered to a child honour its served type. Documents 01, "Giving out slots", and 10, "Proof plan for demand 3".
// There is no code here: the laws are what the guarantee leans on, level by level.
#![tactic(auto)]
