// A one-word Pauli as a caller in another language sees it: for the exports of kernels and of runs.
#![tactic(auto)]

ghost use Rattle.std.specs.Prelude.{◌≡◌};
ghost use Rattle.paulilaws.specs.Pauli.{identity};
ghost use Rattle.activepauli.specs.Active.{active_of};
ghost use Rattle.verdicts.specs.Verdict.{ResultSeen};

use activepauli::ActivePauli;
use verdicts::{Verdict, verdict_and_value};

// Beside a refusal the Pauli is the identity on no qubits.
#[repr(C)]
#[derive(Clone, Copy)]
pub struct SeenActivePauli {
    pub verdict: Verdict,
    pub pauli: ActivePauli,
}

pub fn identity_on_none() -> ActivePauli
    ensures { active_of result ≡ identity 0 }
{
    ActivePauli {
        nqubits: 0,
        x: 0,
        z: 0,
        phase: 0,
    }
}

impl<E> From<Result<ActivePauli, E>> for SeenActivePauli
where
    Verdict: From<E>,
{
    ghost from_gives = { λ answer seen.
        ResultSeen ⟦<Verdict as From<E>>⟧.from_gives active_of seen.verdict (active_of seen.pauli) (identity 0) answer };

    fn from(answer: Result<ActivePauli, E>) -> SeenActivePauli {
        let (verdict, pauli) = verdict_and_value(answer, identity_on_none());
        SeenActivePauli { verdict, pauli }
    }
}
