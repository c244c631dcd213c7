// Calls of bits, paulis, pauligroup and paulitext in text: each line asks one, and its whole answer is
// written as a line. The operations are listed in form::arity; `p` reads a text, `#` is a comment.
#![tactic(auto)]

mod ask;
pub mod form;
pub mod show;

// The C library's number of standard output.
const STDOUT_FILENO: i32 = 1;

// The first byte of a line names the call; what follows are its arguments.
fn answer(line: &[u8]) {
    match line {
        [b'#', b' ', ..] => {
            io::write_all(STDOUT_FILENO, line);
        }
        [b'p', b' ', text @ ..] => show::made(paulitext::pauli_string(text)),
        [call, b' ', ..] => words(*call, &line[1..]),
        _ => show::unread(),
    }
}

fn words(call: u8, text: &[u8]) {
    let mut words = [0; 20];
    match form::words(text, &mut words) {
        Some(count) if form::arity(call, words) == Some(count) => {
            if count < 10 {
                ask::words(call, words);
            } else {
                ask::paulis(call, words);
            }
        }
        _ => show::unread(),
    }
}

// Answers each line, and ends each answer.
pub fn each_line<F: Fn(&[u8])>(input: &[u8], answer: F)
    requires { F.IsAlwaysCallable answer }
{
    for line in input.split_inclusive(|byte| *byte == b'\n') {
        answer(line.strip_suffix(b"\n").unwrap_or(line));
        show::byte(b'\n');
    }
}

// Answers each line of the input, up to its last line end.
pub fn answer_lines(input: &[u8]) {
    if let Some(end) = input.iter().rposition(|byte| *byte == b'\n') {
        each_line(&input[..=end], answer);
    }
}
