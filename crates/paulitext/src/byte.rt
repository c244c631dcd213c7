// The bytes of a Pauli's text.
ghost use Rattle.std.specs.Prelude.{◌≡◌, true, ◌++◌, ◌+◌, ◌<◌, ◌≤◌, max, length, get_or, drop};
ghost use Rattle.paulilaws.specs.Pauli.{fits};
ghost use Rattle.paulis.specs.Strings.{pauli_of, pauli_letter_of};
ghost use Rattle.paulitext.specs.Text as text;
ghost use Rattle.paulitext.specs.Text.{letter_of_byte, letter_read, byte_of, body};

use paulis::{Pauli, PauliString};

// The letter that a byte stands for, if it stands for one. No `TryFrom`: neither `u8` nor `Pauli` is of this crate.
#[tactic(auto, using(crate::proofs::Bytes::not_letter), unfolding(crate::specs::Text::letter_of_byte))]
pub(crate) fn letter(byte: u8) -> Option<Pauli>
    ensures { letter_read result ≡ letter_of_byte byte }
{
    match byte {
        b'I' | b'i' | b'_' => Some(Pauli::I),
        b'X' | b'x' => Some(Pauli::X),
        b'Y' | b'y' => Some(Pauli::Y),
        b'Z' | b'z' => Some(Pauli::Z),
        _ => None,
    }
}

// The letter's byte, upper case. No `From`, for the same reason.
fn of_letter(letter: Pauli) -> u8
    ensures { result ≡ byte_of (pauli_letter_of letter) }
{
    match letter {
        Pauli::I => b'I',
        Pauli::X => b'X',
        Pauli::Z => b'Z',
        Pauli::Y => b'Y',
    }
}

// The coefficient in front of the letters: nothing, `i*`, `-` or `-i*`.
#[tactic(auto, using(crate::proofs::Bytes::long_prefix), unfolding(crate::specs::Text::prefix))]
fn prefix(coefficient: u8) -> &'static [u8]
    ensures { result.now ≡ text.prefix coefficient }
{
    match coefficient {
        0 => b"",
        1 => b"i*",
        2 => b"-",
        _ => b"-i*",
    }
}

// The same written to the front of `out`, byte by byte: a copy of slices would need the C library's.
#[tactic(auto, unfolding(crate::specs::Text::prefix))]
fn write_prefix(coefficient: u8, out: &mut [u8]) -> usize
    requires { length (text.prefix coefficient) ≤ length out.old }
    ensures { let s = text.prefix coefficient in (result ≡ length s) × (out.new ≡ s ++ drop (length s) out.old) }
{
    match coefficient {
        0 => 0,
        1 => {
            out[0] = b'i';
            out[1] = b'*';
            2
        }
        2 => {
            out[0] = b'-';
            1
        }
        _ => {
            out[0] = b'-';
            out[1] = b'i';
            out[2] = b'*';
            3
        }
    }
}

// How long the text of `nqubits` letters is: no qubits show as one.
pub(crate) fn text_len(coefficient: u8, nqubits: usize) -> usize
    requires { nqubits ≤ 256 }
    ensures { result ≡ length (text.prefix coefficient) + max nqubits 1 }
{
    prefix(coefficient).len() + nqubits.max(1)
}

// Writes the whole text to the front of `out`.
pub(crate) fn write(pauli: PauliString, coefficient: u8, out: &mut [u8])
    requires pauli_value { fits (pauli_of pauli) ≡ true }
    requires text_in_bounds { length (text.prefix coefficient) + max pauli.nqubits 1 ≤ length out.old }
    ensures { let s = text.prefix coefficient ++ body pauli.nqubits (pauli_of pauli) in
        out.new ≡ s ++ drop (length s) out.old }
{
    let at = write_prefix(coefficient, out);
    for q in 0..pauli.nqubits.max(1) {
        out[at + q] = of_letter(pauli.get(q).unwrap_or(Pauli::I));
    }
}
