// Calls on runs, from standard input, as fields, reader, checker, runner, passing, carrier, seeker, folder and listing
// answer them; the file stdout beside this folder has the answers that vectors/runs.py gives. First runs at their limits;
// then the frame theorem on random runs, a Pauli fired before a run against the carried run and the end Pauli fired after it, with
// both sides' amplitudes; then two Paulis in turn and as one; then starts for ends; then runs without corrections; then
// both listings.
#![tactic(auto)]

fn main() {
    kernel_calls::answer_input(run_calls::answer);
}
