// Calls of activepauli, kernels, rotation, promotion, measurement and correction in text: each line asks
// one, and its whole answer is written as a line, with every lent buffer as it is after the call. The
// calls are listed in read::call; `#` is a comment.
#![tactic(auto)]

mod ask;
pub mod read;
pub mod write;

ghost use Rattle.std.specs.Prelude.{◌≡◌, length};

use pauli_calls::show;

// The C library's numbers of standard input and output.
const STDIN_FILENO: i32 = 0;

const STDOUT_FILENO: i32 = 1;

fn answer_line<F: Fn(&[u8]) -> Option<()>>(line: &[u8], answer: &F)
    requires { F.IsAlwaysCallable answer.now }
{
    if line.first() == Some(&b'#') {
        io::write_all(STDOUT_FILENO, line);
    } else if answer(line).is_none() {
        show::unread();
    }
}

// A function of its own, since the check stops at so long a list.
fn buffer() -> [u8; 1048576]
    ensures { 1048576 ≡ length result }
{
    [0; 1048576]
}

// Answers each line of standard input, of which 1,048,576 bytes are read; a comment is written as it is. One that
// cannot be read is answered by None, before anything is written.
pub fn answer_input<F: Fn(&[u8]) -> Option<()>>(answer: F)
    requires { F.IsAlwaysCallable answer }
{
    let mut input = buffer();
    let n = io::read_full(STDIN_FILENO, &mut input);
    pauli_calls::each_line(&input[..n], |line| answer_line(line, &answer));
}

pub fn answer(line: &[u8]) -> Option<()> {
    let end = octets::scan::find(line, 0, line.len(), b' ');
    let bar = octets::scan::find(line, end, line.len(), b'|');
    let call = read::call(&line[..end])?;
    let (words, count) = read::words(read::trimmed(&line[end..bar]))?;
    if count != read::arity(call, words)? {
        return None;
    }
    let lent = &line[bar..];
    match call {
        b'r' | b'p' | b'b' | b'c' => ask::on_state(call, words, lent),
        b'j' => ask::project(words, lent),
        _ => alone(call, words, lent),
    }
}

// A call that nothing is lent to, so that nothing may be left of its line.
fn alone(call: u8, words: [u64; 12], lent: &[u8]) -> Option<()> {
    if !lent.is_empty() {
        return None;
    }
    match call {
        b'A' | b'R' | b'M' | b'F' => ask::kernels(call, words),
        _ => ask::paulis(call, words),
    }
    Some(())
}
