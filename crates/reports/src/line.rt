// The lines, each put into a lent buffer at a place: the answer is where the line ends.
ghost use Rattle.std.specs.Prelude.{◌+◌, ◌≤◌, length};
ghost use Rattle.activepauli.specs.Active.{active_of};
ghost use Rattle.framelaws.specs.Caller.{widest_run};
ghost use Rattle.refusals.specs.Refusal.{number_of};
ghost use Rattle.reporter.specs.Meaning.{flag_of, told_of, framed_of};
ghost use Rattle.steps.specs.Meaning.{step_of};
ghost use Rattle.reports.specs.Narrow.{NarrowPauli, NarrowStep};
ghost use Rattle.reports.specs.NarrowRun.{NarrowFramed};
ghost use Rattle.lines.specs.Stored.{Stored};
ghost use Rattle.reports.specs.Text.{qubits_text, flag_text, kind_text, step_text, step_line, end_line, refusal_at_line};

use crate::pieces::{put, put_named, put_numbered, put_qubits};
use activepauli::ActivePauli;
use refusals::RowAt;
use reporter::{Flag, Framed};
use steps::Step;

// What kind of step it is, and its Pauli.
fn put_kind(step: Step, at: usize, out: &mut [u8]) -> usize
    requires { NarrowStep (step_of step) × (at + 28 ≤ length out.old) }
    ensures { Stored (kind_text (step_of step)) at out.old result out.new }
{
    match step {
        Step::Rotation(pauli, _, _, _) => put_named(b"rotation ", pauli, at, out),
        Step::Promotion(_, _) => put(b"promotion", at, out),
        Step::Projection(pauli, _, _, _) => put_named(b"projection ", pauli, at, out),
        Step::Correction(pauli) => put_named(b"correction ", pauli, at, out),
        Step::QuarterTurn(pauli) => put_named(b"quarter-turn ", pauli, at, out),
    }
}

// The qubits of a mask, where it has any.
fn put_mask(mask: u64, width: usize, at: usize, out: &mut [u8]) -> usize
    requires { (width ≤ widest_run) × (at + 43 ≤ length out.old) }
    ensures { Stored (qubits_text width mask) at out.old result out.new }
{
    if mask == 0 {
        return at;
    }
    let end = put(b" qubits", at, out);
    put_qubits(mask, width, end, out)
}

// Whether the sign or the branch is changed, and the qubits that are the cause.
fn put_flagged(flag: Flag, width: usize, at: usize, out: &mut [u8]) -> usize
    requires { (width ≤ widest_run) × (at + 51 ≤ length out.old) }
    ensures { Stored (flag_text width (flag_of flag)) at out.old result out.new }
{
    if flag.changed {
        let end = put(b" changed", at, out);
        return put_mask(flag.mask, width, end, out);
    }
    let end = put(b" kept", at, out);
    put_mask(flag.mask, width, end, out)
}

// The same, or that there is no flag.
pub(crate) fn put_flag(flag: Option<Flag>, width: usize, at: usize, out: &mut [u8]) -> usize
    requires { (width ≤ widest_run) × (at + 51 ≤ length out.old) }
    ensures { Stored (flag_text width (told_of flag)) at out.old result out.new }
{
    match flag {
        Some(flag) => put_flagged(flag, width, at, out),
        None => put(b" no flag", at, out),
    }
}

// A step's number, its kind and its Pauli.
fn put_label(number: usize, step: Step, at: usize, out: &mut [u8]) -> usize
    requires { NarrowStep (step_of step) × (at + 54 ≤ length out.old) }
    ensures { Stored (step_text number (step_of step)) at out.old result out.new }
{
    let first = put_numbered(b"step ", number as u64, at, out);
    let second = put(b" ", first, out);
    put_kind(step, second, out)
}

// A step, and the frame before it.
pub(crate) fn put_step(number: usize, framed: Framed, at: usize, out: &mut [u8]) -> usize
    requires { NarrowFramed (framed_of framed) × (at + 128 ≤ length out.old) }
    ensures { Stored (step_line number (framed_of framed)) at out.old result out.new }
{
    let flag = reporter::report_of(framed.frame, framed.step);
    let first = put_label(number, framed.step, at, out);
    let second = put_named(b" frame ", framed.frame, first, out);
    let last = put_flag(flag, framed.frame.nqubits, second, out);
    put(b"\n", last, out)
}

// The frame at the end of a run.
pub(crate) fn put_end(pauli: ActivePauli, at: usize, out: &mut [u8]) -> usize
    requires { NarrowPauli (active_of pauli) × (at + 26 ≤ length out.old) }
    ensures { Stored (end_line (active_of pauli)) at out.old result out.new }
{
    let end = put_named(b"end frame ", pauli, at, out);
    put(b"\n", end, out)
}

// A refusal with its place.
pub(crate) fn put_refused_at(row_at: RowAt, at: usize, out: &mut [u8]) -> usize
    requires { at + 36 ≤ length out.old }
    ensures { Stored (refusal_at_line (number_of row_at.row) row_at.at) at out.old result out.new }
{
    let number = u8::from(row_at.row);
    let first = put_numbered(b"refused ", u64::from(number), at, out);
    let second = put_numbered(b" at ", row_at.at as u64, first, out);
    put(b"\n", second, out)
}
