// Walks over a run that was checked: one counts the log's bytes, the other writes them. What is no step is the run's end.
ghost use Rattle.std.specs.Prelude.{◌≡◌, [], ◌∷◌, ◌++◌, ◌+◌, ◌≤◌, length, drop};
ghost use Rattle.std.proofs.lemmas.List.Edits.{sets};
ghost use Rattle.activepauli.specs.Active.{active_of};
ghost use Rattle.bitlaws.specs.Digit.{bit_of};
ghost use Rattle.callers.specs.Meaning.{limits_of};
ghost use Rattle.runlaws.specs.FrameLog.{flag_of, flags_of};
ghost use Rattle.runlaws.specs.OnStart.{run_in, OnStart};
ghost use Rattle.steps.specs.Meaning.{step_of};
ghost use Rattle.framelog.specs.LogIn.{log_in, Started};

use crate::pauli_bytes;
use activepauli::ActivePauli;
use callers::Limits;
use steps::{Cursor, Read, Step};

// How many bytes the log has, whatever Pauli is carried.
pub(crate) fn log_size(run: &[u8], width: usize, limits: Limits) -> usize
    requires { Started (limits_of limits) run.now width }
    ensures { result ≡ length (flags_of (run_in (limits_of limits) run.now).steps) + 17 }
{
    let mut cursor = Cursor {
        at: fields::START_BYTES,
        width,
    };
    let mut count = 0;
    while let Ok(Read::Step(step, next)) = reader::read(run, cursor, limits) {
        count += flag_count(step);
        cursor = next;
    }
    count + pauli_bytes::SIZE
}

// The log, written to the front of `out`.
pub(crate) fn write_log(run: &[u8], pauli: ActivePauli, out: &mut [u8], limits: Limits)
    requires on_start { OnStart (limits_of limits) run.now (active_of pauli) }
    requires pauli_in_bounds { length (log_in (limits_of limits) run.now (active_of pauli)) ≤ length out.old }
    ensures { let log = log_in (limits_of limits) run.now (active_of pauli) in
        out.new ≡ log ++ drop (length log) out.old }
{
    let mut cursor = Cursor {
        at: fields::START_BYTES,
        width: pauli.nqubits,
    };
    let mut held = pauli;
    let mut to = 0;
    while let Ok(Read::Step(step, next)) = reader::read(run, cursor, limits) {
        // A Pauli on the state's qubits is taken past any step that was checked.
        let past = passing::past(held, step).unwrap();
        to = put_flag(past.step, to, out);
        held = past.pauli;
        cursor = next;
    }
    pauli_bytes::put(held, to, out);
}

#[tactic(auto, unfolding(runlaws::specs::FrameLog::flag_of))]
fn flag_count(step: Step) -> usize
    ensures { result ≡ length (flag_of (step_of step)) }
{
    match step {
        Step::Rotation(..) | Step::Projection(..) => 1,
        Step::Promotion(..) | Step::Correction(_) | Step::QuarterTurn(_) => 0,
    }
}

// The step's sign or branch, written at `to`: the place behind it.
#[tactic(auto, unfolding(runlaws::specs::FrameLog::flag_of))]
fn put_flag(step: Step, to: usize, out: &mut [u8]) -> usize
    requires { to + length (flag_of (step_of step)) ≤ length out.old }
    ensures value { result ≡ to + length (flag_of (step_of step)) }
    ensures out_after { out.new ≡ sets out.old to (flag_of (step_of step)) }
{
    match step {
        Step::Rotation(_, flag, ..) | Step::Projection(_, _, flag, _) => {
            out[to] = u8::from(flag);
            to + 1
        }
        Step::Promotion(..) | Step::Correction(_) | Step::QuarterTurn(_) => to,
    }
}
