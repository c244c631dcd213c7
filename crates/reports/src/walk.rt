// The lines of all steps, over a run that was checked, put where they fit.
ghost use Rattle.std.specs.Prelude.{◌≡◌, true, ◌+◌, ◌≤◌, ◌<◌, ◌^◌, Float, length};
ghost use Rattle.activepauli.specs.Active.{active_of};
ghost use Rattle.framelaws.specs.Caller.{service};
ghost use Rattle.runlaws.specs.Calls.{frames_of};
ghost use Rattle.runlaws.specs.OnStart.{run_in, OnStart};
ghost use Rattle.reporter.specs.Meaning.{framed_of};
ghost use Rattle.reports.specs.Listing.{frames_text};
ghost use Rattle.reports.specs.Narrow.{NarrowPauli};
ghost use Rattle.reports.specs.NarrowRun.{NarrowFramed};
ghost use Rattle.reports.specs.Put.{PutFitting};
ghost use Rattle.reports.specs.Text.{step_line, end_line};

use crate::{line, pieces};
use activepauli::ActivePauli;
use callers::Caller;
use reporter::Framed;
use steps::{Cursor, Read};

// Puts a text at `at` where it fits, and answers where it ends.
fn put_fitting(text: &[u8], at: usize, out: &mut [u8]) -> usize
    requires { at + length text.now < 2 ^ 64 }
    ensures { PutFitting text.now at out.old result out.new }
{
    let end = at + text.len();
    if end <= out.len() {
        pieces::put(text, at, out);
    }
    end
}

// So the line of a step.
fn put_step(number: usize, framed: Framed, at: usize, out: &mut [u8]) -> usize
    requires { NarrowFramed (framed_of framed) × (at < 2 ^ 32) }
    ensures { PutFitting (step_line number (framed_of framed)) at out.old result out.new }
{
    let mut text = [0u8; 128];
    let len = line::put_step(number, framed, 0, &mut text);
    put_fitting(&text[..len], at, out)
}

// And the line of the frame at the end.
fn put_end(frame: ActivePauli, at: usize, out: &mut [u8]) -> usize
    requires { NarrowPauli (active_of frame) × (at < 2 ^ 32) }
    ensures { PutFitting (end_line (active_of frame)) at out.old result out.new }
{
    let mut text = [0u8; 26];
    let len = line::put_end(frame, 0, &mut text);
    put_fitting(&text[..len], at, out)
}

// All lines, from the start of `out` where they fit: the answer is their length. What is no step is the run's end.
pub(crate) fn put_frames(run: &[u8], pauli: ActivePauli, out: &mut [u8]) -> usize
    requires { OnStart service run.now (active_of pauli) }
    ensures { let text = frames_text (frames_of (active_of pauli) (run_in service run.now)) in
        PutFitting text 0 out.old result out.new }
{
    let mut cursor = Cursor {
        at: fields::START_BYTES,
        width: pauli.nqubits,
    };
    let limits = Caller::Service.limits();
    let mut frame = pauli;
    let mut number = 0;
    let mut end = 0;
    while let Ok(Read::Step(step, next)) = reader::read(run, cursor, limits) {
        end = put_step(number, Framed { frame, step }, end, out);
        // Never refused: a Pauli on the state's qubits is taken past any step that was checked.
        frame = passing::past(frame, step).unwrap().pauli;
        cursor = next;
        number += 1;
    }
    put_end(frame, end, out)
}
