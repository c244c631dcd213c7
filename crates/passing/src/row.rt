// Which row of the scope's table refuses to take a Pauli past a step.
ghost use Rattle.std.specs.Prelude.{◌≡◌};
ghost use Rattle.activepauli.specs.Active.{active_of};
ghost use Rattle.framelaws.specs.PassRow.{pair_row, widened_row, pass_row};
ghost use Rattle.refusals.specs.Refusal.{row_of};
ghost use Rattle.steps.specs.Meaning.{step_of};

use activepauli::ActivePauli;
use refusals::{Row, refuse_if};
use steps::Step;

// 3 and 4, of two Paulis that are to be on the same qubits.
fn pair_row(pauli: ActivePauli, other: ActivePauli) -> Result<(), Row>
    ensures { row_of result ≡ pair_row (active_of pauli) (active_of other) }
{
    pauli.pauli_row()?;
    other.pauli_row()?;
    refuse_if(pauli.nqubits != other.nqubits, Row::WidthsDiffer)
}

// 3, of a Pauli and of the one behind a promotion.
fn widened_row(pauli: ActivePauli) -> Result<(), Row>
    ensures { row_of result ≡ widened_row (active_of pauli) }
{
    pauli.pauli_row()?;
    crate::suited::widened(pauli).pauli_row()
}

#[tactic(auto, unfolding(framelaws::specs::PassRow::pass_row))]
pub(crate) fn pass_row(pauli: ActivePauli, step: Step) -> Result<(), Row>
    ensures { row_of result ≡ pass_row (active_of pauli) (step_of step) }
{
    match step {
        Step::Rotation(other, ..) | Step::Correction(other) | Step::QuarterTurn(other) => pair_row(
            pauli, other,
        ),
        Step::Promotion(..) => widened_row(pauli),
        Step::Projection(measured, pivot, ..) => {
            pair_row(pauli, measured)?;
            refuse_if(pauli.nqubits <= pivot, Row::PivotPastWidth)
        }
    }
}
