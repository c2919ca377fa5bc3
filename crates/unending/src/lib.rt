// Giving out slots over unending supply and declines: who is charged, who is granted, and what is left at every slot. No code: the laws are what the
// guarantee leans on, and above them nobody opens the walk.
#![tactic(auto)]
