// The first entries of a list rewritten, and the loops that do it, for other crates to cite: see specs/. There is no code here.
#![tactic(auto)]
