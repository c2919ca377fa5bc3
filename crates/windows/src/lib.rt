// Misses allowed, document 02, request 6: windows take the place of slots. Of the wanted windows, an allocation that honours a served type meets all but u
// of each K, and every choice of windows that leaves out at most u of each K is all that some honouring allocation meets; so to stand in for a soft type is
// to stand in, among windows, for a hard one. No code: the laws, proved against the meaning, serve the decision on soft types.
#![tactic(auto)]
