// Folding: a run without its corrections. Each is folded into a Pauli that begins as the identity and is taken past the
// other steps, whose signs and branches it alters. The fields that are left are written to a lent output, one behind the
// other, and the Pauli at the end is answered: fired behind them it gives what the run gives (runlaws WithoutCorrections
// says when).
#![tactic(auto)]

mod past;

ghost use Rattle.std.specs.Prelude.{◌≡◌, ◌++◌, length, drop, ◌≤◌};
ghost use Rattle.activepauli.specs.Active.{active_of};
ghost use Rattle.callers.specs.Meaning.{caller_of, limits_of};
ghost use Rattle.refusals.specs.Refusal.{refusal_answer_of};
ghost use Rattle.runlaws.specs.Calls.{folding};
ghost use Rattle.folder.specs.Meaning.{folded_of};
ghost use Rattle.folder.specs.Foldable.{left_in, end_in, Foldable};

use activepauli::ActivePauli;
use callers::{Caller, Limits};
use refusals::{Refusal, Row};
use steps::{Cursor, Read};

// The end Pauli, and how many bytes are left.
#[derive(Clone, Copy)]
pub struct Folded {
    pub end: ActivePauli,
    pub size: usize,
}

// A run of the caller's; or the run's own refusal with its place, or 16. The output holds the run that is left, and what
// it held past that; on a refusal it stays as it was.
pub fn fold_run(run: &[u8], out: &mut [u8], caller: Caller) -> Result<Folded, Refusal>
    ensures { let did = folding (caller_of caller) run.now out.old in
        (refusal_answer_of folded_of result ≡ did.answer) × (out.new ≡ did.lent) }
{
    let limits = caller.limits();
    let width = checker::check_with_start(run, limits)?.start;
    let size = left_size(run, width, limits);
    if out.len() < size {
        return Err(Refusal::Whole(Row::OutputTooShort));
    }
    let end = fold_steps(run, width, out, limits);
    Ok(Folded { end, size })
}

// How many bytes are left of a run that was checked. What is no step is the run's end.
fn left_size(run: &[u8], width: usize, limits: Limits) -> usize
    requires { Foldable (limits_of limits) run.now width }
    ensures { result ≡ length (left_in (limits_of limits) run.now) }
{
    let mut cursor = Cursor {
        at: fields::START_BYTES,
        width,
    };
    let mut size = run.len();
    while let Ok(Read::Step(step, next)) = reader::read(run, cursor, limits) {
        size -= past::freed(step);
        cursor = next;
    }
    size
}

// The same run's fields, written: the Pauli at the end.
fn fold_steps(run: &[u8], width: usize, out: &mut [u8], limits: Limits) -> ActivePauli
    requires foldable { Foldable (limits_of limits) run.now width }
    requires run_in_bounds { length (left_in (limits_of limits) run.now) ≤ length out.old }
    ensures result_value { active_of result ≡ end_in (limits_of limits) run.now }
    ensures out_after { let left = left_in (limits_of limits) run.now in
        out.new ≡ left ++ drop (length left) out.old }
{
    let mut cursor = Cursor {
        at: fields::START_BYTES,
        width,
    };
    let mut held = past::identity(width);
    let mut to = octets::copy(&run[0..fields::START_BYTES], out);
    while let Ok(Read::Step(step, next)) = reader::read(run, cursor, limits) {
        let from = cursor.at;
        let until = next.at;
        let count = past::write_left(&run[from..until], held, step, &mut out[to..]);
        to += count;
        held = past::folded(held, step);
        cursor = next;
    }
    let from = cursor.at;
    octets::copy(&run[from..], &mut out[to..]);
    held
}
