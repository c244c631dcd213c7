// The check of a whole run, made before any amplitude or output byte is written. It answers the last
// width, the number of steps (the fields between start and end), the greatest width, and how many
// amplitudes the largest state has that a projection with an X part leaves; or the first refusal, in
// file order, with its place.
#![tactic(auto)]

ghost use Rattle.std.specs.Prelude.{◌≡◌, ◌≤◌, length};
ghost use Rattle.framelaws.specs.Survey.{survey, mixed_amplitudes};
ghost use Rattle.framelaws.specs.Survey as frame;
ghost use Rattle.refusals.specs.Refusal.{row_at_answer_of};
ghost use Rattle.runlaws.specs.Field.{most_bytes};
ghost use Rattle.runlaws.specs.Run.{mapped, walk};
ghost use Rattle.runlaws.specs.Calls.{checking, checking_with_start};
ghost use Rattle.callers.specs.Meaning.{limits_of};
ghost use Rattle.steps.specs.Meaning.{step_of};
ghost use Rattle.checker.specs.Surveyed.{Measured, Surveyable};
ghost use Rattle.checker.specs.Meaning.{survey_fields_of, checked_of};

use callers::Limits;
use refusals::{Row, RowAt};
use steps::{Cursor, Read, Step};

#[repr(C)]
#[derive(Clone, Copy)]
pub struct Survey {
    pub width: usize,
    pub steps: usize,
    pub greatest: usize,
    pub scratch: usize,
}

// The width that a run starts at, and its survey.
#[derive(Clone, Copy)]
pub struct Checked {
    pub start: usize,
    pub survey: Survey,
}

// A run under a caller's limits, or under the service's rows and any limit on the width.
pub fn check_run(run: &[u8], limits: Limits) -> Result<Survey, RowAt>
    ensures { row_at_answer_of survey_fields_of result ≡ checking (limits_of limits) run.now }
{
    let checked = check_with_start(run, limits)?;
    Ok(checked.survey)
}

// The same, with the width that it starts at.
pub fn check_with_start(run: &[u8], limits: Limits) -> Result<Checked, RowAt>
    ensures { row_at_answer_of checked_of result ≡ checking_with_start (limits_of limits) run.now }
{
    let width = fields::start(run)?;
    if limits.widest() < width {
        return Err(RowAt {
            row: limits.start_row(),
            at: 0,
        });
    }
    let survey = survey_steps(run, width, limits)?;
    Ok(Checked {
        start: width,
        survey,
    })
}

// The fields behind the start field, one after the other.
fn survey_steps(run: &[u8], width: usize, limits: Limits) -> Result<Survey, RowAt>
    requires { (4 ≤ length run.now) × (length run.now ≤ most_bytes) }
    ensures { let s = run.now in
        row_at_answer_of survey_fields_of result
        ≡ mapped (survey width) (walk (limits_of limits) (length s) s (record { at = 4; width = width })) }
{
    let mut cursor = Cursor {
        at: fields::START_BYTES,
        width,
    };
    let mut survey = Survey {
        width,
        steps: 0,
        greatest: width,
        scratch: 0,
    };
    loop {
        match reader::read(run, cursor, limits)? {
            Read::Step(step, next) => {
                survey = surveyed(survey, step, next.width);
                cursor = next;
            }
            // Bytes past the end field are refused at the first of them.
            Read::End(last) if last.at < run.len() => {
                return Err(RowAt {
                    row: Row::BadField,
                    at: last.at,
                });
            }
            Read::End(_) => return Ok(survey),
        }
    }
}

// One step further; `width` is the width behind it.
fn surveyed(survey: Survey, step: Step, width: usize) -> Survey
    requires { Surveyable (survey_fields_of survey) (step_of step) width }
    ensures { survey_fields_of result ≡ frame.surveyed (survey_fields_of survey) (step_of step) }
{
    Survey {
        width,
        steps: survey.steps + 1,
        greatest: survey.greatest.max(width),
        scratch: survey.scratch.max(mixed_amplitudes(survey.width, step)),
    }
}

// How many amplitudes the step, at this width, makes in the scratch.
fn mixed_amplitudes(width: usize, step: Step) -> usize
    requires { Measured width (step_of step) }
    ensures { result ≡ mixed_amplitudes width (step_of step) }
{
    match step {
        Step::Projection(pauli, ..) => {
            if pauli.x == 0 {
                return 0;
            }
            1usize << (width - 1)
        }
        Step::Rotation(..) | Step::Promotion(..) | Step::Correction(_) | Step::QuarterTurn(_) => 0,
    }
}
