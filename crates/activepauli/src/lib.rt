// Paulis with one word a mask, as the kernels and the runs hold them: the operator i^phase X^x Z^z on
// `nqubits` qubits, qubit q at bit q of `x` and `z`. The fields are public, so each call looks at its
// Pauli first and refuses by 3 what is none; then by 4 or 5 of the scope's table.
//
// The promises are the first layer's own definitions: what `product` or `anti` means there, it means here. The types stay two: C has
// a struct for each, and a kernel's formulas take a mask as one word, not as an array of one.
#![tactic(auto)]

ghost use Rattle.std.specs.Prelude.{◌≡◌, ◌<◌};
ghost use Rattle.bitlaws.specs.Opening.{drop_bit};
ghost use Rattle.bitlaws.specs.Parity.{overlap};
ghost use Rattle.paulilaws.specs.Pauli.{fits};
ghost use Rattle.refusals.specs.Refusal.{answer_of, row_of};
ghost use Rattle.paulis.specs.Strings.{pauli_of};
ghost use Rattle.paulis.specs.Calls.{bit_call};
ghost use Rattle.pauligroup.specs.Calls.{product_call, anticommutes_call, squares_call};
ghost use Rattle.activepauli.specs.Active.{active_of};
ghost use Rattle.activepauli.specs.Narrowed.{narrowed};
ghost use Rattle.activepauli.specs.Rows.{pauli_row, qubit_row, pair_row};
ghost use Rattle.activepauli.specs.Calls.{raised_call, dropped_call};

use paulis::PauliString;
use refusals::{Row, refuse_if};

#[repr(C)]
#[derive(Clone, Copy, PartialEq, Eq)]
pub struct ActivePauli {
    pub nqubits: usize,
    pub x: u64,
    pub z: u64,
    pub phase: u8,
}

// The same Pauli with four words a mask.
impl From<ActivePauli> for PauliString {
    ghost from_gives = { λ pauli string. pauli_of string ≡ active_of pauli };

    fn from(pauli: ActivePauli) -> PauliString {
        PauliString {
            nqubits: pauli.nqubits,
            x: [pauli.x, 0, 0, 0],
            z: [pauli.z, 0, 0, 0],
            phase: pauli.phase,
        }
    }
}

impl ActivePauli {
    // The Pauli with the lowest word of each mask.
    pub fn lowest_words(pauli: PauliString) -> ActivePauli
        ensures { active_of result ≡ narrowed (pauli_of pauli) }
    {
        ActivePauli {
            nqubits: pauli.nqubits,
            x: pauli.x[0],
            z: pauli.z[0],
            phase: pauli.phase,
        }
    }

    // Whether the fields are a Pauli: phase at most 3, width at most 256, no mask bit at or above
    // the width.
    pub fn is_pauli(self) -> bool
        ensures { result ≡ fits (active_of self) }
    {
        (self.phase <= 3)
            & (self.nqubits <= paulis::MOST_QUBITS)
            & masks::word_fits(self.x, self.nqubits)
            & masks::word_fits(self.z, self.nqubits)
    }

    // 3.
    pub fn pauli_row(self) -> Result<(), Row>
        ensures { row_of result ≡ pauli_row (active_of self) }
    {
        refuse_if(!self.is_pauli(), Row::NoPauli)
    }

    // 3 and 5.
    fn qubit_row(self, q: usize) -> Result<(), Row>
        ensures { row_of result ≡ qubit_row (active_of self) q }
    {
        self.pauli_row()?;
        refuse_if(self.nqubits <= q, Row::NoSuchQubit)
    }

    // 3 and 4.
    fn pair_row(self, other: ActivePauli) -> Result<(), Row>
        ensures { row_of result ≡ pair_row (active_of self) (active_of other) }
    {
        self.pauli_row()?;
        other.pauli_row()?;
        refuse_if(self.nqubits != other.nqubits, Row::WidthsDiffer)
    }

    // The product, in which `rhs` acts first.
    pub fn mul(self, rhs: ActivePauli) -> Result<ActivePauli, Row>
        ensures { answer_of active_of result ≡ product_call (active_of self) (active_of rhs) }
    {
        self.pair_row(rhs)?;
        Ok(ActivePauli {
            nqubits: self.nqubits,
            x: self.x ^ rhs.x,
            z: self.z ^ rhs.z,
            phase: (self.phase % 4 + rhs.phase % 4 + 2 * shared(self.z, rhs.x)) % 4,
        })
    }

    // Symplectic inner product: true when the two anticommute.
    pub fn anticommutes(self, other: ActivePauli) -> Result<bool, Row>
        ensures { answer_of (λ b. b) result ≡ anticommutes_call (active_of self) (active_of other) }
    {
        self.pair_row(other)?;
        Ok((shared(self.x, other.z) + shared(self.z, other.x)) % 2 == 1)
    }

    // Whether the operator is Hermitian.
    pub fn is_hermitian(self) -> Result<bool, Row>
        ensures { answer_of (λ b. b) result ≡ squares_call (active_of self) }
    {
        self.pauli_row()?;
        Ok((self.phase % 2 + shared(self.x, self.z)) % 2 == 0)
    }

    // Times i^exponent.
    pub fn raised(self, exponent: u8) -> Result<ActivePauli, Row>
        ensures { answer_of active_of result ≡ raised_call (active_of self) exponent }
    {
        self.pauli_row()?;
        Ok(ActivePauli {
            phase: (self.phase % 4 + exponent % 4) % 4,
            ..self
        })
    }

    // Without qubit `q`: the masks lose its bit, those above it moving down one.
    pub fn dropped(self, q: usize) -> Result<ActivePauli, Row>
        ensures { answer_of active_of result ≡ dropped_call (active_of self) q }
    {
        self.qubit_row(q)?;
        Ok(ActivePauli {
            nqubits: self.nqubits - 1,
            x: drop_bit(self.x, q),
            z: drop_bit(self.z, q),
            phase: self.phase,
        })
    }

    // Whether qubit `q` has an X component.
    pub fn x_bit(self, q: usize) -> Result<bool, Row>
        ensures { answer_of (λ b. b) result ≡ bit_call (active_of self) self.x q }
    {
        self.mask_bit(self.x, q)
    }

    // Whether qubit `q` has a Z component.
    pub fn z_bit(self, q: usize) -> Result<bool, Row>
        ensures { answer_of (λ b. b) result ≡ bit_call (active_of self) self.z q }
    {
        self.mask_bit(self.z, q)
    }

    // Qubit q's bit of one of the masks.
    fn mask_bit(self, mask: u64, q: usize) -> Result<bool, Row>
        ensures { answer_of (λ b. b) result ≡ bit_call (active_of self) mask q }
    {
        self.qubit_row(q)?;
        Ok(bits::word_bit(mask, q))
    }
}

// The parity of the bits that two words share.
fn shared(a: u64, b: u64) -> u8
    ensures { (result ≡ overlap a b) × (result < 2) }
{
    u8::from(bits::is_odd_popcount(a & b))
}

// The word without bit q, those above it moved down one; from bit 64 on there is none to drop.
fn drop_bit(word: u64, q: usize) -> u64
    ensures { result ≡ drop_bit q word }
{
    if 64 <= q {
        return word;
    }
    let one = 1u64 << q;
    (word >> q) / 2 * one + word % one
}
