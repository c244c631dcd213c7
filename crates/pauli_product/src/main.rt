// Multiplies Pauli strings. Each line of standard input holds two texts, separated by one space; the
// text of their product is written, or `refused` with the number of the first refusal on the way and
// the index of the byte where the refusal has one. At most 65,536 bytes are read.
#![tactic(auto)]

use refusals::Refusal;
use std::fmt;
use std::fmt::Write;

// The C library's numbers of standard input and output.
const STDIN_FILENO: i32 = 0;

const STDOUT_FILENO: i32 = 1;

// Standard output, for `write!`. A piece that is not taken stops none behind it.
#[derive(Drop)]
struct Output;

impl fmt::Write for Output {
    fn write_str(&mut self, text: &str) -> fmt::Result {
        io::write_all(STDOUT_FILENO, text.as_bytes());
        Ok(())
    }
}

// The text of the product of two texts, at the start of `out`, or what refused: the left text, then the right one, then the product.
fn product<'a>(left: &[u8], right: &[u8], out: &'a mut [u8]) -> Result<&'a [u8], Refusal> {
    let left = paulitext::pauli_string(left)?;
    let right = paulitext::pauli_string(right)?;
    let product = pauligroup::mul(left, right)?;
    let len = paulitext::display(product, out)?;
    Ok(&out[..len])
}

// The texts before and behind the first space: the second is empty where there is none.
fn texts(line: &[u8]) -> (&[u8], &[u8]) {
    match line.iter().position(|byte| *byte == b' ') {
        Some(space) => (&line[..space], &line[space + 1..]),
        None => (line, b""),
    }
}

fn write_line(line: &[u8]) {
    // The longest text is `-i*` and 256 letters.
    let mut out = [0u8; 259];
    let (left, right) = texts(line);
    match product(left, right, &mut out) {
        Ok(text) => {
            io::write_all(STDOUT_FILENO, text);
            io::write_all(STDOUT_FILENO, b"\n");
        }
        Err(refusal) => {
            let _ = writeln!(Output, "{refusal}");
        }
    }
}

fn main() {
    let mut input = io::large_buffer();
    let n = io::read_full(STDIN_FILENO, &mut input);
    for line in input[..n].split_inclusive(|byte| *byte == b'\n') {
        write_line(line.strip_suffix(b"\n").unwrap_or(line));
    }
}
