// Calls of bits, paulis, pauligroup and paulitext, from standard input; the file stdout beside this folder has their answers. First
// each call at its limits, with answers derived by hand; then calls that were asked of the Rust, with what it answered. At most
// 393,216 bytes are read.
#![tactic(auto)]

// The C library's number of standard input.
const STDIN_FILENO: i32 = 0;

fn main() {
    let mut input = [0; 393216];
    let n = io::read_full(STDIN_FILENO, &mut input);
    pauli_calls::answer_lines(&input[..n]);
}
