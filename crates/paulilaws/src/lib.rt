// Pauli operators on any number of qubits, as definitions and laws: see specs/. There is no code here.
#![tactic(auto)]
