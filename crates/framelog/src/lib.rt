// The log that a chip's frame unit writes beside a run: a byte for each rotation and projection, the sign or branch that it
// used, and then the 17 bytes of the Pauli that it ends in. The right one is what carrying gives; whatever log a chip
// hands over is judged by it, byte for byte.
#![tactic(auto)]

mod pauli_bytes;
mod walk;

ghost use Rattle.std.specs.Prelude.{◌≡◌, length};
ghost use Rattle.answers.specs.Row as table;
ghost use Rattle.activepauli.specs.Active.{active_of};
ghost use Rattle.callers.specs.Meaning.{caller_of, limits_of};
ghost use Rattle.framelaws.specs.PassRow.{placed_row};
ghost use Rattle.refusals.specs.Refusal.{number_of, row_of, refusal_answer_of};
ghost use Rattle.runlaws.specs.Calls.{logging, judging};
ghost use Rattle.runlaws.specs.FrameLog.{is_same};
ghost use Rattle.runlaws.specs.OnStart.{OnStart};
ghost use Rattle.framelog.specs.LogIn.{log_in};

use activepauli::ActivePauli;
use callers::{Caller, Limits};
use refusals::{Refusal, Row, refuse_if};

// A log has no more bytes: a sign or a branch stands in a field of 30 bytes or more.
const LONGEST_LOG: usize = 2201;

// How many bytes the log of the caller's run has, whose unit carries `pauli`; or the run's own refusal with its place, or
// 3, 4 or 16. The output holds the log, and what it held past it; on a refusal it stays as it was.
pub fn log_run(
    run: &[u8],
    pauli: ActivePauli,
    out: &mut [u8],
    caller: Caller,
) -> Result<usize, Refusal>
    ensures { let did = logging (caller_of caller) run.now (active_of pauli) out.old in
        (refusal_answer_of (λ size. size) result ≡ did.answer) × (out.new ≡ did.lent) }
{
    let limits = caller.limits();
    let width = checker::check_with_start(run, limits)?.start;
    let size = walk::log_size(run, width, limits);
    log_row(pauli, width, out.len() < size, Row::OutputTooShort)?;
    walk::write_log(run, pauli, out, limits);
    Ok(size)
}

// Whether `log`, whoever made it, is the log of the caller's run whose unit carries `pauli`; or the run's own refusal with
// its place, or 3, 4 or 24.
pub fn judge_log(
    run: &[u8],
    pauli: ActivePauli,
    log: &[u8],
    caller: Caller,
) -> Result<bool, Refusal>
    ensures { refusal_answer_of (λ right. right) result ≡ judging (caller_of caller) run.now (active_of pauli) log.now }
{
    let limits = caller.limits();
    let width = checker::check_with_start(run, limits)?.start;
    let size = walk::log_size(run, width, limits);
    log_row(pauli, width, log.len() != size, Row::LogLength)?;
    Ok(is_right(run, pauli, log, limits))
}

// 3 and 4, and behind them a row of the call's own.
fn log_row(pauli: ActivePauli, width: usize, refused: bool, own: Row) -> Result<(), Row>
    ensures { row_of result ≡ table.first (placed_row (active_of pauli) width) (table.row refused (number_of own) 0) }
{
    passing::placed_row(pauli, width)?;
    refuse_if(refused, own)
}

// Whether a log as long as the right one is the right one, which is made in a buffer of fixed size: no heap.
fn is_right(run: &[u8], pauli: ActivePauli, log: &[u8], limits: Limits) -> bool
    requires on_start { OnStart (limits_of limits) run.now (active_of pauli) }
    requires log_len { length log.now ≡ length (log_in (limits_of limits) run.now (active_of pauli)) }
    ensures { result ≡ is_same log.now (log_in (limits_of limits) run.now (active_of pauli)) }
{
    let mut space = zeros();
    let right = &mut space[..log.len()];
    walk::write_log(run, pauli, right, limits);
    log == right
}

fn zeros() -> [u8; LONGEST_LOG]
    ensures { 2201 ≡ length result }
{
    [0; LONGEST_LOG]
}
