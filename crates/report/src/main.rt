// Reads a line with a Pauli and perhaps a step's number, and behind it a run, from standard input, and writes the report on
// what carrying the Pauli does to the run's steps to standard output.
#![tactic(auto)]

// The C library's numbers of standard input and output.
const STDIN_FILENO: i32 = 0;

const STDOUT_FILENO: i32 = 1;

fn main() {
    // A line of 65,534 bytes and its newline, and one byte more than a run may have, so that a longer one is seen.
    let mut input = [0u8; 131072];
    let n = io::read_full(STDIN_FILENO, &mut input);
    // Long enough for every report, so that none is refused.
    let mut text = [0u8; 441370];
    let len = reports::list_report(&input[..n], &mut text).unwrap();
    io::write_all(STDOUT_FILENO, &text[..len]);
}
