// The lines that `bench` prints, each written to the start of a lent buffer: the answer is its length,
// or row 16 where the buffer is too short, which is then left as it was.
// A piece of a line is put at a place, and the answer is where it ends: a struct of both would say no more than `Stored`.
#![tactic(auto)]

#[cfg(test)]
mod tests;

ghost use Rattle.std.specs.Prelude.{◌≡◌, ◌++◌, ◌+◌, ◌≤◌, length};
ghost use Rattle.std.proofs.lemmas.List.Edits.{sets};
ghost use Rattle.lines.specs.Calls.{Lined};
ghost use Rattle.lines.specs.Lines.{decimal, bits_of, listed_bits, width_line, amplitude_line, refusal_line};
ghost use Rattle.lines.specs.Lines.{part as line_part};
ghost use Rattle.lines.specs.Stored.{Stored};
ghost use Rattle.lines.specs.Fitting.{fitting};

use refusals::Row;

// The bits of a float, every NaN having the same.
#[tactic(auto, unfolding(crate::specs::Lines::bits_of))]
pub fn bits(x: f64) -> u64
    ensures { result ≡ bits_of x }
{
    if x.is_nan() {
        return 0x7ff8000000000000;
    }
    x.to_bits()
}

// `qubits` and the width.
#[tactic(auto, unfolding(crate::specs::Lines::width_line))]
pub fn qubits(width: usize, out: &mut [u8]) -> Result<usize, Row>
    ensures { Lined (width_line width) out.old result out.new }
{
    line(b"qubits ", width as u64, b"\n", out)
}

// The basis, and the listed bits of the two parts of its amplitude.
pub fn amplitude(basis: usize, re: f64, im: f64, out: &mut [u8]) -> Result<usize, Row>
    ensures { Lined (amplitude_line basis re im) out.old result out.new }
{
    let mut tail = [0u8; 35];
    let second = part(re, 0, &mut tail);
    let end = part(im, second, &mut tail);
    put(b"\n", end, &mut tail);
    line(b"", basis as u64, &tail, out)
}

// `refused` and the number.
#[tactic(auto, unfolding(crate::specs::Lines::refusal_line))]
pub fn refused(number: u8, out: &mut [u8]) -> Result<usize, Row>
    ensures { Lined (refusal_line number) out.old result out.new }
{
    line(b"refused ", u64::from(number), b"\n", out)
}

// How many digits a number has in decimal.
pub fn decimal_length(n: u64) -> usize
    ensures { result ≡ length (decimal n) }
{
    let mut text = [0u8; 20];
    io::decimal(n, &mut text)
}

// A number in decimal between two texts.
fn line(label: &[u8], n: u64, tail: &[u8], out: &mut [u8]) -> Result<usize, Row>
    requires { (length label.now ≤ 8) × (length tail.now ≤ 35) }
    ensures { Lined (label.now ++ (decimal n ++ tail.now)) out.old result out.new }
{
    let mut digits = [0u8; 20];
    let count = io::decimal(n, &mut digits);
    let len = label.len() + count + tail.len();
    if out.len() < len {
        return Err(Row::OutputTooShort);
    }
    let number = put(label, 0, out);
    let rest = put(&digits[..count], number, out);
    put(tail, rest, out);
    Ok(len)
}

// The bits that are listed: 0 for either zero. Amplitudes in memory keep theirs.
fn listed_bits(x: f64) -> u64
    ensures { result ≡ listed_bits x }
{
    if x == 0.0 {
        return 0;
    }
    bits(x)
}

// Puts a space and the 16 hexadecimal digits of a float's listed bits at `at`, and answers where they end.
fn part(x: f64, at: usize, out: &mut [u8]) -> usize
    requires { at + 17 ≤ length out.old }
    ensures value { result ≡ at + 17 }
    ensures out_after { out.new ≡ sets out.old at (line_part x) }
{
    let mut digits = [0u8; 16];
    let count = io::hex(listed_bits(x), 16, &mut digits);
    let first = put(b" ", at, out);
    put(&digits[..count], first, out)
}

// Puts a text at `at`, and answers where it ends.
fn put(text: &[u8], at: usize, out: &mut [u8]) -> usize
    requires { at + length text.now ≤ length out.old }
    ensures { Stored text.now at out.old result out.new }
{
    at + octets::copy(text, &mut out[at..])
}

// Puts a number in decimal at `at` where it has room there, and answers where it ends. Without room nothing is put, and it ends at `at`.
pub fn put_number(n: u64, at: usize, out: &mut [u8]) -> usize
    ensures { Stored (fitting (decimal n) at out.old) at out.old result out.new }
{
    let mut digits = [0u8; 20];
    let count = io::decimal(n, &mut digits);
    let room = out.len().saturating_sub(at);
    if room < count {
        return at;
    }
    put(&digits[..count], at, out)
}
