// Calls of activepauli, kernels, rotation, promotion, measurement and correction, from standard input; the file stdout beside this
// folder has their answers. First each call at its limits, with the answers that vectors/model.py gives; then calls that were asked
// of the Rust, with what it answered.
#![tactic(auto)]

fn main() {
    kernel_calls::answer_input(kernel_calls::answer);
}
