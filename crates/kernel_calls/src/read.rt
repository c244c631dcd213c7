// The arguments in a line. After the call's name come words, a space before each: numbers in decimal,
// masks and floats in hexadecimal after 0x. The lent buffers follow, ` |` before each; their words are
// floats, each a space and 16 hexadecimal digits. A Pauli is four words: width, phase, x and z.
ghost use Rattle.std.specs.Prelude.{◌≤◌, IfSome, length};

use activepauli::ActivePauli;
use pauli_calls::form;
use paulis::PauliString;

// A letter for each call: an enum would name each twice more, here and where it is asked.
pub(crate) fn call(name: &[u8]) -> Option<u8> {
    match name {
        b"is_pauli" => Some(b'v'),
        b"is_hermitian" => Some(b'h'),
        b"mul" => Some(b'm'),
        b"anticommutes" => Some(b'a'),
        b"raised" => Some(b'e'),
        b"dropped" => Some(b'd'),
        b"x_bit" => Some(b'x'),
        b"z_bit" => Some(b'z'),
        b"action" => Some(b'A'),
        b"rotation_kernel" => Some(b'R'),
        b"with_pivot" => Some(b'M'),
        b"from_pauli" => Some(b'F'),
        b"rotate" => Some(b'r'),
        b"promote" => Some(b'p'),
        b"project" => Some(b'j'),
        b"probability" => Some(b'b'),
        b"correct" => Some(b'c'),
        _ => None,
    }
}

// How many words a call takes; none where a sign or branch is over 1.
pub(crate) fn arity(call: u8, words: [u64; 12]) -> Option<usize> {
    match call {
        b'p' => Some(3),
        b'v' | b'h' | b'F' | b'c' => Some(4),
        b'e' | b'd' | b'x' | b'z' | b'M' => Some(5),
        b'R' => Some(6),
        b'b' if words[5] < 2 => Some(6),
        b'r' if words[4] < 2 => Some(7),
        b'j' if words[5] < 2 => Some(7),
        b'm' | b'a' => Some(8),
        b'A' => Some(10),
        _ => None,
    }
}

// A text without the space that it may end in.
pub(crate) fn trimmed(text: &[u8]) -> &[u8] {
    text.strip_suffix(b" ").unwrap_or(text)
}

// A number's text; one of more than 64 bits goes round.
pub fn number(text: &[u8]) -> Option<u64> {
    match text {
        [] => None,
        [b'0', b'x', digits @ ..] if !digits.is_empty() => digits_of(digits, 16),
        _ => digits_of(text, 10),
    }
}

fn digits_of(text: &[u8], radix: u64) -> Option<u64> {
    let mut value: u64 = 0;
    for byte in text {
        let digit = u64::from(form::digit(*byte)?);
        if radix <= digit {
            return None;
        }
        value = value.wrapping_mul(radix).wrapping_add(digit);
    }
    Some(value)
}

// The words of a call, a space before each, and how many there are: none where something else stands there, or more
// than twelve.
pub fn words(text: &[u8]) -> Option<([u64; 12], usize)> {
    let mut words = [0; 12];
    let mut count = 0;
    for word in text.split(|byte| *byte == b' ').skip(1) {
        *words.get_mut(count)? = number(word)?;
        count += 1;
    }
    Some((words, count))
}

// Reads the buffer that the bar at the start of a text begins, up to the next bar or the end: the floats, written to
// the start of `out`, and what follows.
pub fn floats<'a, 'b>(text: &'a [u8], out: &'b mut [f64]) -> Option<(&'b mut [f64], &'a [u8])>
    ensures { IfSome result (λ read. (length read.0.now ≤ length out.old) × (length read.1.now ≤ length text.now)) }
{
    if text.is_empty() {
        return None;
    }
    let next = octets::scan::find(text, 1, text.len(), b'|');
    let mut words = [0; 160];
    let count = form::words(trimmed(&text[1..next]), &mut words);
    for (to, word) in out.iter_mut().zip(words.iter()) {
        *to = float(*word);
    }
    Some((out.get_mut(..count?)?, &text[next..]))
}

// The float that a word is; every NaN pattern is read as the same NaN.
pub(crate) fn float(bits: u64) -> f64 {
    let exponent = bits % 0x8000000000000000 / 0x10000000000000;
    if (exponent == 2047) & (bits % 0x10000000000000 != 0) {
        return f64::NAN;
    }
    f64::from_bits(bits)
}

// The Pauli in word k and the three after it.
pub(crate) fn pauli(words: [u64; 12], k: usize) -> ActivePauli
    requires { k ≤ 8 }
{
    ActivePauli {
        nqubits: form::index(words[k]),
        x: words[k + 2],
        z: words[k + 3],
        phase: form::phase(words[k + 1]),
    }
}

// The Pauli in the first four words.
pub fn first_pauli(words: [u64; 12]) -> ActivePauli {
    pauli(words, 0)
}

// The one in the four behind these.
pub fn second_pauli(words: [u64; 12]) -> ActivePauli {
    pauli(words, 4)
}

// The Pauli in the first ten words, with four words a mask.
pub(crate) fn string(words: [u64; 12]) -> PauliString {
    PauliString {
        nqubits: form::index(words[0]),
        x: [words[2], words[3], words[4], words[5]],
        z: [words[6], words[7], words[8], words[9]],
        phase: form::phase(words[1]),
    }
}
