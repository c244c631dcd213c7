// The arguments in a line: words, each a space and 16 lower-case hexadecimal digits. A mask is four
// words; a Pauli is ten: the width, the masks x and z, the phase.
ghost use Rattle.std.specs.Prelude.{◌≤◌};

use paulis::{Pauli, PauliString};

// How many words a call takes; none where there is no such call, or a word is too large for it.
pub(crate) fn arity(call: u8, words: [u64; 20]) -> Option<usize> {
    match call {
        b'o' | b'n' => Some(1),
        b'i' => Some(2),
        b'P' | b'F' => Some(5),
        b'W' if words[5] < 2 => Some(6),
        b'O' | b'X' => Some(8),
        b'h' | b's' | b'c' | b'v' | b't' | b'f' => Some(10),
        b'g' | b'b' | b'd' => Some(11),
        b'S' if words[11] < 4 => Some(12),
        b'm' | b'a' => Some(20),
        _ => None,
    }
}

// The value of a lower-case hexadecimal digit.
pub fn digit(byte: u8) -> Option<u8> {
    match byte {
        b'0'..=b'9' => Some(byte - b'0'),
        b'a'..=b'f' => Some(byte - b'a' + 10),
        _ => None,
    }
}

// Reads a word that is zero before; none where something else stands there. The digits before that are read all the same.
fn read_word(part: &[u8], word: &mut u64) -> Option<()> {
    let [b' ', digits @ ..] = part else {
        return None;
    };
    for byte in digits {
        *word = (*word << 4) | u64::from(digit(*byte)?);
    }
    (digits.len() == 16).then_some(())
}

// Reads words that are zeros before, and answers how many there are: none where something else stands
// there, or more words than were lent.
pub fn words(text: &[u8], words: &mut [u64]) -> Option<usize> {
    for (i, part) in text.chunks(17).enumerate() {
        read_word(part, words.get_mut(i)?)?;
    }
    Some(text.len() / 17)
}

pub fn index(word: u64) -> usize {
    word as usize
}

pub(crate) fn letter(code: u64) -> Pauli {
    match code {
        0 => Pauli::I,
        1 => Pauli::X,
        2 => Pauli::Z,
        _ => Pauli::Y,
    }
}

// A phase over 255 is taken for 255, which is refused too.
pub fn phase(word: u64) -> u8 {
    u8::try_from(word).unwrap_or(u8::MAX)
}

// The mask in word k and the three after it.
pub(crate) fn mask(words: [u64; 20], k: usize) -> [u64; 4]
    requires { k ≤ 16 }
{
    [words[k], words[k + 1], words[k + 2], words[k + 3]]
}

// The Pauli in word k and the nine after it.
pub(crate) fn pauli(words: [u64; 20], k: usize) -> PauliString
    requires { k ≤ 10 }
{
    PauliString {
        nqubits: index(words[k]),
        x: mask(words, k + 1),
        z: mask(words, k + 5),
        phase: phase(words[k + 9]),
    }
}
