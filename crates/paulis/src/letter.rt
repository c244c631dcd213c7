// One qubit's bits and letter: read, and set.
ghost use Rattle.std.specs.Prelude.{◌≡◌, ◌<◌, ◌≤◌};
ghost use Rattle.paulilaws.specs.Letter as book;
ghost use Rattle.bitlaws.specs.Digit.{bit_of};
ghost use Rattle.masks.specs.Mask.{mask};
ghost use Rattle.paulis.specs.Calls.{bit_call};
ghost use Rattle.refusals.specs.Refusal.{answer_of};
ghost use Rattle.paulis.specs.Strings.{pauli_of, pauli_letter_of};

use crate::{Pauli, PauliString};
use refusals::Row;

// Qubit q's bit of a mask of the Pauli, which is looked at here.
pub(crate) fn mask_bit(pauli: PauliString, words: [u64; 4], q: usize) -> Result<bool, Row>
    ensures { answer_of (λ b. b) result ≡ bit_call (pauli_of pauli) (mask words) q }
{
    pauli.has_qubit(q)?;
    Ok(masks::packed_bit(words, q))
}

// Qubit q's letter.
pub(crate) fn at(pauli: PauliString, q: usize) -> Pauli
    ensures { pauli_letter_of result ≡ book.letter_at q (pauli_of pauli) }
{
    from_bits(masks::packed_bit(pauli.x, q), masks::packed_bit(pauli.z, q))
}

// The Pauli with qubit q's letter set. k gains 1 for a new Y and loses 1, which is 3 modulo 4, for
// an old one.
pub(crate) fn with(pauli: PauliString, q: usize, letter: Pauli) -> PauliString
    requires { (q < 256) × (pauli.phase ≤ 3) }
    ensures { pauli_of result ≡ book.with_letter q (pauli_letter_of letter) (pauli_of pauli) }
{
    let was_y = is_y(at(pauli, q));
    PauliString {
        nqubits: pauli.nqubits,
        x: masks::set_packed_bit(pauli.x, q, x_part(letter)),
        z: masks::set_packed_bit(pauli.z, q, z_part(letter)),
        phase: (pauli.phase + is_y(letter) + 3 * was_y) % 4,
    }
}

fn from_bits(x: bool, z: bool) -> Pauli
    ensures { pauli_letter_of result ≡ book.letter_of (bit_of x) (bit_of z) }
{
    match (x, z) {
        (false, false) => Pauli::I,
        (true, false) => Pauli::X,
        (false, true) => Pauli::Z,
        (true, true) => Pauli::Y,
    }
}

fn x_part(letter: Pauli) -> bool
    ensures { bit_of result ≡ book.x_part (pauli_letter_of letter) }
{
    matches!(letter, Pauli::X | Pauli::Y)
}

fn z_part(letter: Pauli) -> bool
    ensures { bit_of result ≡ book.z_part (pauli_letter_of letter) }
{
    matches!(letter, Pauli::Z | Pauli::Y)
}

// 1 for Y, else 0.
fn is_y(letter: Pauli) -> u8
    ensures { (result ≡ book.is_y (pauli_letter_of letter)) × (result ≤ 1) }
{
    u8::from(matches!(letter, Pauli::Y))
}
