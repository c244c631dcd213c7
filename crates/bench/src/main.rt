// Reads one run from standard input, and writes its listing to standard output.
#![tactic(auto)]

// The C library's numbers of standard input and output.
const STDIN_FILENO: i32 = 0;

const STDOUT_FILENO: i32 = 1;

fn main() {
    // One byte more than a run may have, so that a longer one is seen.
    let mut input = [0u8; 65537];
    let n = io::read_full(STDIN_FILENO, &mut input);
    // Long enough for every listing, so that none is refused.
    let mut text = [0u8; 159754];
    let len = listing::list_run(&input[..n], &mut text).unwrap();
    io::write_all(STDOUT_FILENO, &text[..len]);
}
