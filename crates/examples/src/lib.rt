// The starred examples of the scope in one table: see specs/. There is no code here.
#![tactic(auto)]
