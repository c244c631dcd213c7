// What each step does to the amplitudes, written once over any arithmetic and used at binary64: see specs/.
#![tactic(auto)]
