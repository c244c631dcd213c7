// A step that another language hands over by its tag, and what is seen of a Pauli taken past it.
ghost use Rattle.std.specs.Prelude.{◌≡◌};
ghost use Rattle.activepauli.specs.Active.{active_of};
ghost use Rattle.refusals.specs.Refusal.{answer_of, row_of};
ghost use Rattle.steps.specs.Meaning.{step_of};
ghost use Rattle.passing.specs.Meaning.{passage_of};
ghost use Rattle.run_exports.specs.Reading.{step_back};
ghost use Rattle.run_exports.specs.Past.{is_step_tag, bit_row, as_bit, given_call, past_seen, given_of, past_of};

use crate::seen;
use crate::seen::SeenField;
use active_seen::identity_on_none;
use activepauli::ActivePauli;
use passing::Passage;
use refusals::{Row, refuse_if};
use steps::{Step, tag};
use verdicts::Verdict;

// A step by its tag, 2 to 5 or 7. `flag` is a rotation's sign or a projection's branch. What the step does not have is
// not looked at; a projection's one float is the first.
#[repr(C)]
#[derive(Clone, Copy)]
pub struct GivenStep {
    pub tag: u8,
    pub pauli: ActivePauli,
    pub flag: u8,
    pub pivot: usize,
    pub first: f64,
    pub second: f64,
}

fn is_step(given: GivenStep) -> bool
    ensures { result ≡ is_step_tag given.tag }
{
    let first_four = (tag::ROTATION <= given.tag) & (given.tag <= tag::CORRECTION);
    first_four | (given.tag == tag::QUARTER_TURN)
}

// Its step, a flag that is no bit taken for 0. One that has no step's tag is taken for a correction.
impl From<GivenStep> for Step {
    ghost from_gives = { λ given step. step_of step ≡ step_back (as_bit (given_of given)) };

    fn from(given: GivenStep) -> Step {
        let pauli = given.pauli;
        let flag = given.flag == 1;
        if given.tag == tag::ROTATION {
            return Step::Rotation(pauli, flag, given.first, given.second);
        }
        if given.tag == tag::PROMOTION {
            return Step::Promotion(given.first, given.second);
        }
        if given.tag == tag::PROJECTION {
            return Step::Projection(pauli, given.pivot, flag, given.first);
        }
        if given.tag == tag::QUARTER_TURN {
            return Step::QuarterTurn(pauli);
        }
        Step::Correction(pauli)
    }
}

// 14 where a flag that the step has is no bit.
fn bit_row(given: GivenStep) -> Result<(), Row>
    ensures { row_of result ≡ bit_row (step_back (given_of given)) }
{
    if given.tag == tag::ROTATION {
        return verdicts::flag_row(given.flag);
    }
    if given.tag == tag::PROJECTION {
        return verdicts::flag_row(given.flag);
    }
    Ok(())
}

// The row of a tag that no step has stands before all, that of a flag behind them.
pub(crate) fn past(pauli: ActivePauli, given: GivenStep) -> Result<Passage, Row>
    ensures { answer_of passage_of result ≡ given_call (active_of pauli) (given_of given) }
{
    refuse_if(!is_step(given), Row::BadField)?;
    let passage = passing::past(pauli, Step::from(given))?;
    bit_row(given)?;
    Ok(passage)
}

// The step that is left behind, and the Pauli then. Beside a refusal the tag is 0, and so are the others.
#[repr(C)]
#[derive(Clone, Copy)]
pub struct SeenPast {
    pub verdict: Verdict,
    pub field: SeenField,
    pub pauli: ActivePauli,
}

impl From<Result<Passage, Row>> for SeenPast {
    ghost from_gives = { λ answer seen. past_of seen ≡ past_seen (answer_of passage_of answer) };

    fn from(answer: Result<Passage, Row>) -> SeenPast {
        match answer {
            Ok(passage) => SeenPast {
                verdict: verdicts::accepted(),
                field: SeenField::from(passage.step),
                pauli: passage.pauli,
            },
            Err(row) => SeenPast {
                verdict: Verdict::from(row),
                field: seen::bare(0),
                pauli: identity_on_none(),
            },
        }
    }
}
