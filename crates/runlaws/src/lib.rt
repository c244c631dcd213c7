// Runs as bytes: fields, steps, what running, carrying and seeking do, and the theorems on them: definitions and laws, no functions.
#![tactic(auto)]
