// Laws of masks over any width, for other crates to cite: see specs/. There is no code here.
#![tactic(auto)]
