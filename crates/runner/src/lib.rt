// Running: the steps of a run on lent amplitudes, one after the other. The run is checked whole first, so
// that a refused run leaves all four buffers as they were.
#![tactic(auto)]

ghost use Rattle.amplitudelaws.specs.Memory.{memory_of};
ghost use Rattle.std.specs.Prelude.{◌≡◌, ◌&&◌};
ghost use Rattle.amplitudelaws.specs.Rows.{room_row};
ghost use Rattle.amplitudelaws.specs.State.{room_for, room};
ghost use Rattle.framelaws.specs.Memory.{stepped};
ghost use Rattle.runlaws.specs.Calls.{running};
ghost use Rattle.refusals.specs.Refusal.{row_of, refusal_answer_of};
ghost use Rattle.callers.specs.Meaning.{caller_of, limits_of};
ghost use Rattle.steps.specs.Meaning.{step_of};
ghost use Rattle.runner.specs.Meaning.{finished_of};
ghost use Rattle.runner.specs.Ready.{StepReady, RunReady};

use callers::{Caller, Limits};
use refusals::{Refusal, Row};
use steps::{Cursor, Read, Step};

// The last width and the number of steps done.
#[derive(Clone, Copy)]
pub struct Finished {
    pub width: usize,
    pub steps: usize,
}

// A run of the caller's; or the run's own refusal with its place, or 13.
pub fn run_contiguous(
    run: &[u8],
    re: &mut [f64],
    im: &mut [f64],
    scratch_re: &mut [f64],
    scratch_im: &mut [f64],
    caller: Caller,
) -> Result<Finished, Refusal>
    ensures { let m = memory_of re.old im.old scratch_re.old scratch_im.old in
        let did = running (caller_of caller) run.now m in
        (refusal_answer_of finished_of result ≡ did.answer) × (memory_of re.new im.new scratch_re.new scratch_im.new ≡ did.lent) }
{
    let limits = caller.limits();
    let checked = checker::check_with_start(run, limits)?;
    let survey = checked.survey;
    memory_row(
        re,
        im,
        scratch_re,
        scratch_im,
        survey.greatest,
        survey.scratch,
    )?;
    run_steps(run, re, im, scratch_re, scratch_im, limits, checked.start);
    Ok(Finished {
        width: survey.width,
        steps: survey.steps,
    })
}

// 13: the state's room for the greatest width, and the scratch's.
fn memory_row(
    re: &[f64],
    im: &[f64],
    scratch_re: &[f64],
    scratch_im: &[f64],
    greatest: usize,
    scratch: usize,
) -> Result<(), Row>
    ensures { let m = memory_of re.now im.now scratch_re.now scratch_im.now in
        row_of result ≡ room_row (room greatest m.state && room_for scratch m.scratch) }
{
    let states = rows::has_room(re, im, greatest);
    let mixtures = (scratch <= scratch_re.len()) & (scratch <= scratch_im.len());
    rows::room_row(states & mixtures)
}

// The fields behind the start field, one after the other, from the start width on. The run was checked, so
// what is no step is its end.
fn run_steps(
    run: &[u8],
    re: &mut [f64],
    im: &mut [f64],
    scratch_re: &mut [f64],
    scratch_im: &mut [f64],
    limits: Limits,
    width: usize,
)
    requires { RunReady (limits_of limits) run.now width (memory_of re.old im.old scratch_re.old scratch_im.old) }
    ensures { let m = memory_of re.old im.old scratch_re.old scratch_im.old in
        memory_of re.new im.new scratch_re.new scratch_im.new ≡ (running (limits_of limits) run.now m).lent }
{
    let mut cursor = Cursor {
        at: fields::START_BYTES,
        width,
    };
    while let Ok(Read::Step(step, next)) = reader::read(run, cursor, limits) {
        take_step(step, cursor.width, re, im, scratch_re, scratch_im);
        cursor = next;
    }
}

// One step at this width: no row refuses it. The four buffers stay four, as each kernel takes them: a struct of them would
// be taken apart here.
fn take_step(
    step: Step,
    width: usize,
    re: &mut [f64],
    im: &mut [f64],
    scratch_re: &mut [f64],
    scratch_im: &mut [f64],
)
    requires { StepReady width (step_of step) (memory_of re.old im.old scratch_re.old scratch_im.old) }
    ensures { let m = memory_of re.old im.old scratch_re.old scratch_im.old in
        memory_of re.new im.new scratch_re.new scratch_im.new ≡ stepped width (step_of step) m }
{
    match step {
        Step::Rotation(pauli, sign, c, s) => {
            rotation::rotate_contiguous_active(re, im, pauli, sign, c, s).unwrap();
        }
        Step::Promotion(c, q) => {
            promotion::promote_contiguous_active(re, im, width, c, q).unwrap();
        }
        Step::Projection(pauli, pivot, branch, invnorm) => {
            measurement::project_contiguous(
                re, im, scratch_re, scratch_im, pauli, pivot, branch, invnorm,
            )
            .unwrap();
        }
        Step::Correction(pauli) => {
            correction::correct_contiguous_active(re, im, pauli).unwrap();
        }
        Step::QuarterTurn(pauli) => {
            let h = f64::from_bits(complex::H_BITS);
            rotation::rotate_contiguous_active(re, im, pauli, false, h, h).unwrap();
        }
    }
}
