// A Pauli taken past a step that suits it. The step's sign or branch flips where the two anticommute; a
// projection takes the pivot's qubit out of the Pauli, a correction may turn its sign, a quarter turn makes it
// another.
ghost use Rattle.std.specs.Prelude.{◌≡◌, ◌≤◌};
ghost use Rattle.paulilaws.specs.Pauli.{most_qubits};
ghost use Rattle.activepauli.specs.Active.{active_of};
ghost use Rattle.framelaws.specs.Carrying as carrying;
ghost use Rattle.framelaws.specs.Suited.{Suited};
ghost use Rattle.steps.specs.Meaning.{step_of};

use crate::pair::{Pair, signed};
use activepauli::ActivePauli;
use steps::Step;

// With a new highest qubit, the identity there.
#[tactic(auto, unfolding(framelaws::specs::Carrying::widened))]
pub(crate) fn widened(pauli: ActivePauli) -> ActivePauli
    requires { pauli.nqubits ≤ most_qubits }
    ensures { active_of result ≡ carrying.widened (active_of pauli) }
{
    ActivePauli {
        nqubits: pauli.nqubits + 1,
        ..pauli
    }
}

// The Pauli behind the step.
#[tactic(auto, unfolding(framelaws::specs::Carrying::passed))]
pub(crate) fn passed(pauli: ActivePauli, step: Step) -> ActivePauli
    requires { Suited (active_of pauli) (step_of step) }
    ensures { active_of result ≡ carrying.passed (active_of pauli) (step_of step) }
{
    match step {
        Step::Rotation(..) => pauli,
        Step::Promotion(..) => widened(pauli),
        Step::Projection(other, pivot, branch, _) => {
            let pair = Pair { pauli, other };
            pair.past_projection(pivot, branch)
        }
        Step::Correction(other) => {
            let pair = Pair { pauli, other };
            signed(pauli, pair.anticommute())
        }
        Step::QuarterTurn(other) => {
            let pair = Pair { pauli, other };
            pair.past_quarter_turn()
        }
    }
}

// The step that the Pauli leaves behind it.
#[tactic(auto, unfolding(framelaws::specs::Carrying::carried_step))]
pub(crate) fn carried_step(pauli: ActivePauli, step: Step) -> Step
    requires { Suited (active_of pauli) (step_of step) }
    ensures { step_of result ≡ carrying.carried_step (active_of pauli) (step_of step) }
{
    match step {
        Step::Rotation(other, sign, c, s) => {
            let pair = Pair { pauli, other };
            Step::Rotation(other, pair.flipped(sign), c, s)
        }
        Step::Projection(other, pivot, branch, invnorm) => {
            let pair = Pair { pauli, other };
            Step::Projection(other, pivot, pair.flipped(branch), invnorm)
        }
        Step::Promotion(..) | Step::Correction(_) | Step::QuarterTurn(_) => step,
    }
}
