// Reporting: why a step's sign or branch is what it is in the carried run. The frame before a step is the Pauli carried so
// far; the flag is changed where that Pauli and the step's own anticommute, and the qubits on which they do are its cause.
#![tactic(auto)]

mod walk;

ghost use Rattle.std.specs.Prelude.{◌≡◌};
ghost use Rattle.activepauli.specs.Active.{active_of};
ghost use Rattle.callers.specs.Meaning.{caller_of};
ghost use Rattle.framelaws.specs.Reporting.{step_report, pair_report};
ghost use Rattle.refusals.specs.Refusal.{refusal_answer_of};
ghost use Rattle.runlaws.specs.Calls.{finding, reporting};
ghost use Rattle.steps.specs.Meaning.{step_of};
ghost use Rattle.reporter.specs.Meaning.{flag_of, told_of, framed_of};

use activepauli::ActivePauli;
use callers::Caller;
use refusals::Refusal;
use steps::Step;

// Whether a sign or a branch is changed, and the mask of qubits.
#[derive(Clone, Copy)]
pub struct Flag {
    pub changed: bool,
    pub mask: u64,
}

// A step, and the frame before it.
#[derive(Clone, Copy)]
pub struct Framed {
    pub frame: ActivePauli,
    pub step: Step,
}

// The report on step `number` of a run that carries `pauli`; or the refusals of finding it.
pub fn report_step(
    run: &[u8],
    pauli: ActivePauli,
    number: usize,
    caller: Caller,
) -> Result<Option<Flag>, Refusal>
    ensures { refusal_answer_of told_of result ≡ reporting (caller_of caller) run.now (active_of pauli) number }
{
    let found = find_step(run, pauli, number, caller)?;
    Ok(report_of(found.frame, found.step))
}

// The step itself, and the frame before it; or the run's own refusal with its place, or 3, 4 or 20. The first field
// behind start has the number 0.
pub fn find_step(
    run: &[u8],
    pauli: ActivePauli,
    number: usize,
    caller: Caller,
) -> Result<Framed, Refusal>
    ensures { refusal_answer_of framed_of result ≡ finding (caller_of caller) run.now (active_of pauli) number }
{
    let limits = caller.limits();
    let checked = checker::check_with_start(run, limits)?;
    passing::placed_row(pauli, checked.start)?;
    Ok(walk::step_at(run, pauli, number, limits)?)
}

// Of any Pauli and any step, by their masks alone; promotions, corrections and quarter turns have no flag.
#[tactic(auto, unfolding(framelaws::specs::Reporting::step_report))]
pub fn report_of(frame: ActivePauli, step: Step) -> Option<Flag>
    ensures { told_of result ≡ step_report (active_of frame) (step_of step) }
{
    match step {
        Step::Rotation(other, ..) => Some(pair_report(frame, other)),
        Step::Projection(measured, ..) => Some(pair_report(frame, measured)),
        Step::Promotion(..) | Step::Correction(_) | Step::QuarterTurn(_) => None,
    }
}

// The qubits on which the two anticommute: an odd number of them changes the flag.
fn pair_report(frame: ActivePauli, other: ActivePauli) -> Flag
    ensures { flag_of result ≡ pair_report (active_of frame) (active_of other) }
{
    let mask = (frame.x & other.z) ^ (frame.z & other.x);
    Flag {
        changed: bits::is_odd_popcount(mask),
        mask,
    }
}
