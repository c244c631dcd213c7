// A Pauli taken past one step, as carrying takes it past each step of a run. The call answers for any Pauli
// and any step: where the two do not suit each other it is refused.
#![tactic(auto)]

mod pair;
mod row;
mod suited;

ghost use Rattle.std.specs.Prelude.{◌≡◌};
ghost use Rattle.activepauli.specs.Active.{active_of};
ghost use Rattle.framelaws.specs.PassRow.{placed_row, past_call};
ghost use Rattle.refusals.specs.Refusal.{answer_of, row_of};
ghost use Rattle.steps.specs.Meaning.{step_of};
ghost use Rattle.passing.specs.Meaning.{passage_of};

use activepauli::ActivePauli;
use refusals::{Row, refuse_if};
use steps::Step;

// The step that the Pauli leaves behind it, and the Pauli then.
#[derive(Clone, Copy)]
pub struct Passage {
    pub step: Step,
    pub pauli: ActivePauli,
}

// Past the step; or 3, 4 or 10.
pub fn past(pauli: ActivePauli, step: Step) -> Result<Passage, Row>
    ensures { answer_of passage_of result ≡ past_call (active_of pauli) (step_of step) }
{
    row::pass_row(pauli, step)?;
    Ok(Passage {
        step: suited::carried_step(pauli, step),
        pauli: suited::passed(pauli, step),
    })
}

// 3 and 4, of a Pauli that is to be on so many qubits.
pub fn placed_row(pauli: ActivePauli, width: usize) -> Result<(), Row>
    ensures { row_of result ≡ placed_row (active_of pauli) width }
{
    pauli.pauli_row()?;
    refuse_if(pauli.nqubits != width, Row::WidthsDiffer)
}
