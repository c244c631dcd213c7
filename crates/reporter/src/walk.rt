// A walk to the step of a number, over a run that was checked.
ghost use Rattle.std.specs.Prelude.{◌≡◌};
ghost use Rattle.std.proofs.Math.ListN.{get_elem?};
ghost use Rattle.activepauli.specs.Active.{active_of};
ghost use Rattle.callers.specs.Meaning.{limits_of};
ghost use Rattle.framelaws.specs.Reporting.{framed_steps};
ghost use Rattle.refusals.specs.Refusal.{answer_of};
ghost use Rattle.runlaws.specs.Calls.{found};
ghost use Rattle.runlaws.specs.OnStart.{run_in, OnStart};
ghost use Rattle.reporter.specs.Meaning.{framed_of};

use crate::Framed;
use activepauli::ActivePauli;
use callers::Limits;
use refusals::Row;
use steps::{Cursor, Read};

// The step and the frame before it. What is no step is the run's end, and no step has the number: 20.
pub(crate) fn step_at(
    run: &[u8],
    pauli: ActivePauli,
    number: usize,
    limits: Limits,
) -> Result<Framed, Row>
    requires { OnStart (limits_of limits) run.now (active_of pauli) }
    ensures { let steps = (run_in (limits_of limits) run.now).steps in
        answer_of framed_of result ≡ found (get_elem? (framed_steps (active_of pauli) steps) number) }
{
    let mut cursor = Cursor {
        at: fields::START_BYTES,
        width: pauli.nqubits,
    };
    let mut frame = pauli;
    for _i in 0..number {
        let Ok(Read::Step(step, next)) = reader::read(run, cursor, limits) else {
            return Err(Row::NoSuchStep);
        };
        frame = passing::past(frame, step).unwrap().pauli;
        cursor = next;
    }
    let Ok(Read::Step(step, _)) = reader::read(run, cursor, limits) else {
        return Err(Row::NoSuchStep);
    };
    Ok(Framed { frame, step })
}
