// Product, anticommutation and coefficient, of Paulis that the calls have looked at.
ghost use Rattle.std.specs.Prelude.{◌≡◌, ◌<◌, eqb};
ghost use Rattle.paulilaws.specs.Pauli as book;
ghost use Rattle.paulis.specs.Strings.{pauli_of};

use paulis::PauliString;

pub(crate) fn times(a: PauliString, b: PauliString) -> PauliString
    ensures { pauli_of result ≡ book.product (pauli_of a) (pauli_of b) }
{
    // Commuting the right operand's X past the left operand's Z costs a factor of -1 for each
    // overlapping qubit, that is i^2 where their number is odd.
    let carry = masks::shared_ones(a.z, b.x) % 2;
    let phase = (u32::from(a.phase) + u32::from(b.phase) + 2 * carry) % 4;
    PauliString {
        nqubits: a.nqubits,
        x: masks::xor_words(a.x, b.x),
        z: masks::xor_words(a.z, b.z),
        phase: phase as u8,
    }
}

#[tactic(auto, unfolding(paulilaws::specs::Pauli::anti, bitlaws::specs::Parity::overlap, bitlaws::specs::Parity::parity))]
pub(crate) fn anticommute(a: PauliString, b: PauliString) -> bool
    ensures { result ≡ eqb (book.anti (pauli_of a) (pauli_of b)) 1 }
{
    (masks::shared_ones(a.x, b.z) + masks::shared_ones(a.z, b.x)) % 2 == 1
}

// The phase minus the number of Ys, modulo 4.
#[tactic(auto, unfolding(paulilaws::specs::Pauli::coefficient, paulilaws::specs::Pauli::ys))]
pub(crate) fn coefficient(pauli: PauliString) -> u8
    ensures { result ≡ book.coefficient (pauli_of pauli) }
{
    ((u32::from(pauli.phase) + 3 * masks::shared_ones(pauli.x, pauli.z)) % 4) as u8
}
