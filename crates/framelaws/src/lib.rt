// Steps of a run as a list, and a Pauli carried through them: definitions and laws, no functions.
#![tactic(auto)]
