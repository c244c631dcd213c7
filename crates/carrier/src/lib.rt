// Carrying: a Pauli noted before a run is taken past each of its steps instead of being fired. The run
// is written to a lent output with its signs and branches altered to suit, and the Pauli that is left at the
// end is answered.
#![tactic(auto)]

ghost use Rattle.std.specs.Prelude.{◌≡◌};
ghost use Rattle.activepauli.specs.Active.{active_of};
ghost use Rattle.callers.specs.Meaning.{caller_of, limits_of};
ghost use Rattle.framelaws.specs.Carrying.{carried_steps, end_pauli};
ghost use Rattle.refusals.specs.Refusal.{refusal_answer_of, row_of};
ghost use Rattle.runlaws.specs.Flags.{flagged};
ghost use Rattle.runlaws.specs.Calls.{carrying, carrying_row};
ghost use Rattle.runlaws.specs.OnStart.{run_in, OnStart};

use activepauli::ActivePauli;
use callers::{Caller, Limits};
use refusals::{Refusal, Row, refuse_if};
use steps::{Cursor, Read};

// The end Pauli; or the run's own refusal with its place, or 3, 4 or 16. The output holds the run with its new
// signs and branches, and what it held past the run's length; on a refusal it stays as it was.
pub fn carry_run(
    run: &[u8],
    pauli: ActivePauli,
    out: &mut [u8],
    caller: Caller,
) -> Result<ActivePauli, Refusal>
    ensures { let did = carrying (caller_of caller) run.now (active_of pauli) out.old in
        (refusal_answer_of active_of result ≡ did.answer) × (out.new ≡ did.lent) }
{
    let limits = caller.limits();
    let checked = checker::check_with_start(run, limits)?;
    carrying_row(pauli, checked.start, run.len(), out.len())?;
    out[..run.len()].copy_from_slice(run);
    Ok(carry_steps(run, pauli, out, limits))
}

// 3, 4 and 16: `size` is the run's, `room` the output's.
fn carrying_row(pauli: ActivePauli, width: usize, size: usize, room: usize) -> Result<(), Row>
    ensures { row_of result ≡ carrying_row (active_of pauli) width size room }
{
    passing::placed_row(pauli, width)?;
    refuse_if(room < size, Row::OutputTooShort)
}

// Past each step of a run that was checked, of which `out` holds a copy: the Pauli at the end.
fn carry_steps(run: &[u8], pauli: ActivePauli, out: &mut [u8], limits: Limits) -> ActivePauli
    requires { OnStart (limits_of limits) run.now (active_of pauli) }
    ensures { let Q = active_of pauli in let steps = (run_in (limits_of limits) run.now).steps in
        (active_of result ≡ end_pauli Q steps) × (out.new ≡ flagged 4 (carried_steps Q steps) out.old) }
{
    let mut cursor = Cursor {
        at: fields::START_BYTES,
        width: pauli.nqubits,
    };
    let mut held = pauli;
    // What is no step is the run's end, and no step that was checked refuses the Pauli.
    while let Ok(Read::Step(step, next)) = reader::read(run, cursor, limits) {
        let passage = passing::past(held, step).unwrap();
        flags::write_flag(out, cursor.at, passage.step);
        held = passage.pauli;
        cursor = next;
    }
    held
}
