// The Pauli group (pauli.rs): product, anticommutation, coefficient, Hermitian test and sign. Each
// call looks at its Paulis first and refuses by 3 what is none; then by 4 or 7 of the scope's table.
#![tactic(auto)]

mod algebra;

ghost use Rattle.std.specs.Prelude.{◌≡◌};
ghost use Rattle.paulis.specs.Strings.{pauli_of};
ghost use Rattle.refusals.specs.Refusal.{answer_of, row_of};
ghost use Rattle.pauligroup.specs.Calls.{pair_row, product_call, anticommutes_call, coefficient_call, squares_call, sign_call};

use paulis::PauliString;
use refusals::Row;

// Refused where the two are no Paulis, or of different widths.
#[tactic(auto, unfolding(crate::specs::Calls::pair_row, answers::specs::Row::row))]
fn are_pair(a: PauliString, b: PauliString) -> Result<(), Row>
    ensures { row_of result ≡ pair_row (pauli_of a) (pauli_of b) }
{
    if !(a.is_pauli() & b.is_pauli()) {
        return Err(Row::NoPauli);
    }
    if a.nqubits != b.nqubits {
        return Err(Row::WidthsDiffer);
    }
    Ok(())
}

// The product, in which `rhs` acts first.
pub fn mul(lhs: PauliString, rhs: PauliString) -> Result<PauliString, Row>
    ensures { answer_of pauli_of result ≡ product_call (pauli_of lhs) (pauli_of rhs) }
{
    are_pair(lhs, rhs)?;
    Ok(algebra::times(lhs, rhs))
}

// Symplectic inner product: true when `a` and `b` anticommute.
pub fn pauli_anticommutes(a: PauliString, b: PauliString) -> Result<bool, Row>
    ensures { answer_of (λ b. b) result ≡ anticommutes_call (pauli_of a) (pauli_of b) }
{
    are_pair(a, b)?;
    Ok(algebra::anticommute(a, b))
}

// The exponent of i in front of the letters: the phase minus the number of Ys, modulo 4.
#[tactic(auto, unfolding(crate::specs::Calls::coefficient_call, paulis::specs::Calls::on_pauli, answers::specs::Answer::refuse))]
pub fn coefficient_phase(pauli: PauliString) -> Result<u8, Row>
    ensures { answer_of (λ k. k) result ≡ coefficient_call (pauli_of pauli) }
{
    if !pauli.is_pauli() {
        return Err(Row::NoPauli);
    }
    Ok(algebra::coefficient(pauli))
}

// True when the operator is Hermitian, that is its coefficient is real.
pub fn pauli_squares_to_identity(pauli: PauliString) -> Result<bool, Row>
    ensures { answer_of (λ b. b) result ≡ squares_call (pauli_of pauli) }
{
    Ok(coefficient_phase(pauli)? % 2 == 0)
}

// The sign of a Hermitian Pauli: false for +P, true for -P.
pub fn measurement_phase_sign(pauli: PauliString) -> Result<bool, Row>
    ensures { answer_of (λ b. b) result ≡ sign_call (pauli_of pauli) }
{
    let coefficient = coefficient_phase(pauli)?;
    if coefficient % 2 != 0 {
        return Err(Row::NotHermitian);
    }
    Ok(coefficient == 2)
}
