// What an open call answers, as definitions: see specs/. There is no code here.
#![tactic(auto)]
