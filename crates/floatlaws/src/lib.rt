// Laws of IEEE 754 arithmetic over any format, for other crates to cite: see specs/. There is no code here.
#![tactic(auto)]
