// Packed Pauli strings and their letters (pauli.rs); products and signs are the crate pauligroup's.
//
// The operator is i^phase times X^x Z^z: qubit q lives at bit q % 64 of word q / 64 of `x` and `z`,
// and a Y is stored as x = 1, z = 1 with one more in the phase. The fields are public, so each call
// looks at its Pauli first and refuses by 3 what is none; then by 5 of the scope's table.
#![tactic(auto)]

mod letter;
mod support;

ghost use Rattle.std.specs.Prelude.{◌≡◌};
ghost use Rattle.paulilaws.specs.Pauli as book;
ghost use Rattle.paulilaws.specs.Pauli.{fits};
ghost use Rattle.masks.specs.Mask.{mask};
ghost use Rattle.refusals.specs.Optional.{option_of};
ghost use Rattle.refusals.specs.Refusal.{answer_of, row_of};
ghost use Rattle.paulis.specs.Strings.{pauli_of, pauli_letter_of};
ghost use Rattle.paulis.specs.Calls.{qubit_row, identity_call, parts_call, bit_call, get_call, set_call, support_call};

use refusals::Row;

// The widest Pauli.
pub const MOST_QUBITS: usize = 256;

// A Pauli operator on `nqubits` qubits, at most MOST_QUBITS, with a phase exponent of i in 0..3.
#[repr(C)]
#[derive(Clone, Copy)]
pub struct PauliString {
    pub nqubits: usize,
    pub x: [u64; 4],
    pub z: [u64; 4],
    pub phase: u8,
}

// A single-qubit Pauli operator.
#[derive(Clone, Copy)]
pub enum Pauli {
    I,
    X,
    Z,
    Y,
}

#[tactic(auto, unfolding(masks::specs::Mask::mask, bitlaws::specs::Words::words))]
fn identity(nqubits: usize) -> PauliString
    ensures { pauli_of result ≡ book.identity nqubits }
{
    PauliString {
        nqubits,
        x: [0; 4],
        z: [0; 4],
        phase: 0,
    }
}

impl PauliString {
    // Identity on `nqubits` qubits.
    #[tactic(auto, unfolding(crate::specs::Calls::identity_call, answers::specs::Answer::refuse))]
    pub fn new(nqubits: usize) -> Result<PauliString, Row>
        ensures { answer_of pauli_of result ≡ identity_call nqubits }
    {
        if MOST_QUBITS < nqubits {
            return Err(Row::NoPauli);
        }
        Ok(identity(nqubits))
    }

    // The Pauli with these fields.
    #[tactic(auto, unfolding(crate::specs::Calls::parts_call, crate::specs::Calls::on_pauli, answers::specs::Answer::refuse))]
    pub fn from_parts(
        nqubits: usize,
        x: [u64; 4],
        z: [u64; 4],
        phase: u8,
    ) -> Result<PauliString, Row>
        ensures { answer_of pauli_of result ≡ parts_call (record { n = nqubits; k = phase; x = mask x; z = mask z }) }
    {
        let parts = PauliString {
            nqubits,
            x,
            z,
            phase,
        };
        if !parts.is_pauli() {
            return Err(Row::NoPauli);
        }
        Ok(parts)
    }

    // Whether the fields are a Pauli: phase at most 3, width at most 256, no mask bit at or above
    // the width.
    #[tactic(auto, unfolding(paulilaws::specs::Pauli::fits))]
    pub fn is_pauli(self) -> bool
        ensures { result ≡ fits (pauli_of self) }
    {
        if 3 < self.phase {
            return false;
        }
        if MOST_QUBITS < self.nqubits {
            return false;
        }
        masks::mask_fits(self.x, self.nqubits) & masks::mask_fits(self.z, self.nqubits)
    }

    // Refused where the fields are no Pauli, or one that has no qubit `q`.
    #[tactic(auto, unfolding(crate::specs::Calls::qubit_row, answers::specs::Row::row))]
    fn has_qubit(self, q: usize) -> Result<(), Row>
        ensures { row_of result ≡ qubit_row (pauli_of self) q }
    {
        if !self.is_pauli() {
            return Err(Row::NoPauli);
        }
        if self.nqubits <= q {
            return Err(Row::NoSuchQubit);
        }
        Ok(())
    }

    // Whether qubit `q` has an X component.
    pub fn x_bit(self, q: usize) -> Result<bool, Row>
        ensures { answer_of (λ b. b) result ≡ bit_call (pauli_of self) (mask self.x) q }
    {
        letter::mask_bit(self, self.x, q)
    }

    // Whether qubit `q` has a Z component.
    pub fn z_bit(self, q: usize) -> Result<bool, Row>
        ensures { answer_of (λ b. b) result ≡ bit_call (pauli_of self) (mask self.z) q }
    {
        letter::mask_bit(self, self.z, q)
    }

    // The single-qubit Pauli acting on `q`.
    pub fn get(self, q: usize) -> Result<Pauli, Row>
        ensures { answer_of pauli_letter_of result ≡ get_call (pauli_of self) q }
    {
        self.has_qubit(q)?;
        Ok(letter::at(self, q))
    }

    // Replaces the Pauli acting on `q`. The phase follows the Ys, so the coefficient in front of
    // the letters stays.
    pub fn set(self, q: usize, pauli: Pauli) -> Result<PauliString, Row>
        ensures { answer_of pauli_of result ≡ set_call (pauli_of self) q (pauli_letter_of pauli) }
    {
        self.has_qubit(q)?;
        Ok(letter::with(self, q, pauli))
    }

    // The largest qubit that carries a non-identity Pauli.
    pub fn max_support(self) -> Result<Option<usize>, Row>
        ensures { answer_of option_of result ≡ support_call (pauli_of self) }
    {
        if !self.is_pauli() {
            return Err(Row::NoPauli);
        }
        Ok(support::highest_bit(self.x, self.z))
    }
}

// Constructs identity on `nqubits` qubits: the Rust's name beside `PauliString::new`, and its promise stays.
pub fn pauli_identity(nqubits: usize) -> Result<PauliString, Row>
    ensures { answer_of pauli_of result ≡ identity_call nqubits }
{
    PauliString::new(nqubits)
}
