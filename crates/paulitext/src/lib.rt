// Pauli strings as text (pauli_string and Display of pauli.rs). Place in the text is the qubit.
#![tactic(auto)]

mod byte;

ghost use Rattle.std.specs.Prelude.{◌≡◌};
ghost use Rattle.refusals.specs.Refusal.{refusal_answer_of};
ghost use Rattle.paulis.specs.Strings.{pauli_of};
ghost use Rattle.paulitext.specs.Calls.{Shown, read_call};

use paulis::PauliString;
use refusals::{Refusal, Row, RowAt};

// Parses a dense Pauli string such as `IXYZ`: `_` is an alias for `I`, and lower case is accepted.
pub fn pauli_string(ops: &[u8]) -> Result<PauliString, Refusal>
    ensures { refusal_answer_of pauli_of result ≡ read_call ops.now }
{
    refusals::refuse_if(paulis::MOST_QUBITS < ops.len(), Row::TextTooLong)?;
    let mut pauli = paulis::pauli_identity(ops.len()).unwrap();
    for (q, &op) in ops.iter().enumerate() {
        let letter = byte::letter(op).ok_or(RowAt {
            row: Row::NoLetter,
            at: q,
        })?;
        pauli = pauli.set(q, letter).unwrap();
    }
    Ok(pauli)
}

// Writes the text of a Pauli to the start of `out`: the coefficient (nothing, `i*`, `-` or `-i*`),
// then a letter for each qubit, `I` where there is none. No `Display`: it writes the whole text or nothing, and the promise says so.
pub fn display(pauli: PauliString, out: &mut [u8]) -> Result<usize, Row>
    ensures { Shown (pauli_of pauli) out.old result out.new }
{
    let coefficient = pauligroup::coefficient_phase(pauli)?;
    let len = byte::text_len(coefficient, pauli.nqubits);
    refusals::refuse_if(out.len() < len, Row::OutputTooShort)?;
    byte::write(pauli, coefficient, out);
    Ok(len)
}
