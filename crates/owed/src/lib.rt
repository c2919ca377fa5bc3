// What a giver owes a window: no honouring allocation has fewer ones there, the written one has exactly as many, and over the starts of the
// wanted windows it is least at one of two offsets; and (T, T) asks for every slot. No code: the laws, proved against the meaning, serve the
// decision on pairs and whole parents.
#![tactic(auto)]
