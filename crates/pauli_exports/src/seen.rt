// The answers of the first layer as a caller in another language sees them.
ghost use Rattle.std.specs.Prelude.{◌≡◌};
ghost use Rattle.bitlaws.specs.Digit.{bit_of};
ghost use Rattle.paulilaws.specs.Letter.{letter_of};
ghost use Rattle.paulilaws.specs.Letter.Letter.{I as Letter-as-I};
ghost use Rattle.paulilaws.specs.Pauli as book;
ghost use Rattle.paulis.specs.Strings.{pauli_of, pauli_letter_of};
ghost use Rattle.refusals.specs.Optional.{option_of};
ghost use Rattle.refusals.specs.Refusal.{answer_of};
ghost use Rattle.verdicts.specs.Verdict.{ResultSeen};
ghost use Rattle.pauli_exports.specs.Qubit.{SeenQubit};

use paulis::{Pauli, PauliString};
use refusals::Row;
use verdicts::{Verdict, verdict_and_value};

// A letter by its X and its Z part: beside a refusal I.
#[repr(C)]
#[derive(Clone, Copy)]
pub struct SeenLetter {
    pub verdict: Verdict,
    pub x: bool,
    pub z: bool,
}

fn parts(letter: Pauli) -> (bool, bool)
    ensures { letter_of (bit_of result.0) (bit_of result.1) ≡ pauli_letter_of letter }
{
    match letter {
        Pauli::I => (false, false),
        Pauli::X => (true, false),
        Pauli::Z => (false, true),
        Pauli::Y => (true, true),
    }
}

impl<E> From<Result<Pauli, E>> for SeenLetter
where
    Verdict: From<E>,
{
    ghost from_gives = { λ answer seen. let letter = letter_of (bit_of seen.x) (bit_of seen.z) in
        ResultSeen ⟦<Verdict as From<E>>⟧.from_gives pauli_letter_of seen.verdict letter Letter-as-I answer };

    fn from(answer: Result<Pauli, E>) -> SeenLetter {
        let (verdict, letter) = verdict_and_value(answer, Pauli::I);
        let (x, z) = parts(letter);
        SeenLetter { verdict, x, z }
    }
}

// The highest qubit that a Pauli acts on. Where there is none, and beside a refusal, the qubit is 0.
#[repr(C)]
#[derive(Clone, Copy)]
pub struct SeenSupport {
    pub verdict: Verdict,
    pub found: bool,
    pub qubit: usize,
}

impl From<Result<Option<usize>, Row>> for SeenSupport {
    ghost from_gives = { λ answer seen. SeenQubit seen.verdict seen.found seen.qubit (answer_of option_of answer) };

    fn from(answer: Result<Option<usize>, Row>) -> SeenSupport {
        let (verdict, support) = verdict_and_value(answer, None);
        SeenSupport {
            verdict,
            found: support.is_some(),
            qubit: support.unwrap_or(0),
        }
    }
}

// Beside a refusal the Pauli is the identity on no qubits.
#[repr(C)]
#[derive(Clone, Copy)]
pub struct SeenPauli {
    pub verdict: Verdict,
    pub pauli: PauliString,
}

fn identity_on_none() -> PauliString
    ensures { pauli_of result ≡ book.identity 0 }
{
    PauliString {
        nqubits: 0,
        x: [0; 4],
        z: [0; 4],
        phase: 0,
    }
}

impl<E> From<Result<PauliString, E>> for SeenPauli
where
    Verdict: From<E>,
{
    ghost from_gives = { λ answer seen.
        ResultSeen ⟦<Verdict as From<E>>⟧.from_gives pauli_of seen.verdict (pauli_of seen.pauli) (book.identity 0) answer };

    fn from(answer: Result<PauliString, E>) -> SeenPauli {
        let (verdict, pauli) = verdict_and_value(answer, identity_on_none());
        SeenPauli { verdict, pauli }
    }
}
