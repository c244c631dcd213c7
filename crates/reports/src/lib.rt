// What is listed for a person of a run that carries a Pauli, each text written to the start of a lent buffer: the answer is
// its length, or row 16 where the buffer is too short, which is then left as it was.
#![tactic(auto)]

mod input;
mod line;
mod pieces;
mod walk;

ghost use Rattle.std.specs.Prelude.{◌≡◌};
ghost use Rattle.activepauli.specs.Active.{active_of};
ghost use Rattle.framelaws.specs.Caller.{service};
ghost use Rattle.lines.specs.Calls.{Lined};
ghost use Rattle.paulitext.specs.Calls.{read_call};
ghost use Rattle.refusals.specs.Refusal.{number_of};
ghost use Rattle.reporter.specs.Meaning.{framed_of};
ghost use Rattle.runlaws.specs.Calls.{frames_of};
ghost use Rattle.runlaws.specs.OnStart.{run_in, OnStart};
ghost use Rattle.reports.specs.Input.{before};
ghost use Rattle.reports.specs.Listing.{frames_text, answer_text, step_listed, steps_listed, asked, report_listed};
ghost use Rattle.reports.specs.NarrowRun.{NarrowFramed};
ghost use Rattle.reports.specs.Refused.{refusal_text};
ghost use Rattle.reports.specs.Text.{step_line, refusal_at_line};

use activepauli::ActivePauli;
use callers::Caller;
use refusals::{Refusal, Row, RowAt};
use reporter::Framed;

// The line of step `number` of a run of the service, or the refusal.
pub fn list_step(
    run: &[u8],
    pauli: ActivePauli,
    number: usize,
    out: &mut [u8],
) -> Result<usize, Row>
    ensures { Lined (step_listed run.now (active_of pauli) number) out.old result out.new }
{
    match reporter::find_step(run, pauli, number, Caller::Service) {
        Ok(found) => list_found(number, found, out),
        Err(refusal) => list_refused(refusal, out),
    }
}

// A line for each of its steps, and one for the frame at the end; or the refusal.
pub fn list_steps(run: &[u8], pauli: ActivePauli, out: &mut [u8]) -> Result<usize, Row>
    ensures { Lined (steps_listed run.now (active_of pauli)) out.old result out.new }
{
    match checker::check_with_start(run, Caller::Service.limits()) {
        Ok(checked) => match passing::placed_row(pauli, checked.start) {
            Ok(()) => list_frames(run, pauli, out),
            Err(row) => lines::refused(u8::from(row), out),
        },
        Err(row_at) => list_refused_at(row_at, out),
    }
}

fn list_found(number: usize, found: Framed, out: &mut [u8]) -> Result<usize, Row>
    requires { NarrowFramed (framed_of found) }
    ensures { Lined (step_line number (framed_of found)) out.old result out.new }
{
    let mut text = [0u8; 128];
    let len = line::put_step(number, found, 0, &mut text);
    whole(&text[..len], out)
}

// A refusal, with its place where it has one.
fn list_refused(refusal: Refusal, out: &mut [u8]) -> Result<usize, Row>
    ensures { Lined (refusal_text refusal) out.old result out.new }
{
    match refusal {
        Refusal::Whole(row) => lines::refused(u8::from(row), out),
        Refusal::At(row_at) => list_refused_at(row_at, out),
    }
}

fn list_refused_at(row_at: RowAt, out: &mut [u8]) -> Result<usize, Row>
    ensures { Lined (refusal_at_line (number_of row_at.row) row_at.at) out.old result out.new }
{
    let mut text = [0u8; 36];
    let len = line::put_refused_at(row_at, 0, &mut text);
    whole(&text[..len], out)
}

// The length is known before anything is written.
fn list_frames(run: &[u8], pauli: ActivePauli, out: &mut [u8]) -> Result<usize, Row>
    requires { OnStart service run.now (active_of pauli) }
    ensures { let text = frames_text (frames_of (active_of pauli) (run_in service run.now)) in
        Lined text out.old result out.new }
{
    let len = walk::put_frames(run, pauli, &mut []);
    if out.len() < len {
        return Err(Row::OutputTooShort);
    }
    walk::put_frames(run, pauli, out);
    Ok(len)
}

// A text that was made elsewhere.
fn whole(text: &[u8], out: &mut [u8]) -> Result<usize, Row>
    ensures { Lined text.now out.old result out.new }
{
    if out.len() < text.len() {
        return Err(Row::OutputTooShort);
    }
    Ok(octets::copy(text, out))
}

// What the whole input asks for: a line with a Pauli's text and, behind a space, a step's number; then the run.
pub fn list_report(input: &[u8], out: &mut [u8]) -> Result<usize, Row>
    ensures { Lined (report_listed input.now) out.old result out.new }
{
    let end = octets::scan::find(input, 0, input.len(), b'\n');
    let from = (end + 1).min(input.len());
    list_line(&input[..end], &input[from..], out)
}

// What the line asks for.
fn list_line(line: &[u8], run: &[u8], out: &mut [u8]) -> Result<usize, Row>
    ensures { let text = answer_text (asked line.now run.now) (read_call (before 32 line.now)) in
        Lined text out.old result out.new }
{
    let space = octets::scan::find(line, 0, line.len(), b' ');
    match paulitext::pauli_string(&line[..space]) {
        Ok(pauli) => list_asked(line, run, ActivePauli::lowest_words(pauli), out),
        Err(refusal) => list_refused(refusal, out),
    }
}

// The same, for the Pauli that was read.
fn list_asked(line: &[u8], run: &[u8], pauli: ActivePauli, out: &mut [u8]) -> Result<usize, Row>
    ensures { Lined (asked line.now run.now (active_of pauli)) out.old result out.new }
{
    let space = octets::scan::find(line, 0, line.len(), b' ');
    if space < line.len() {
        let from = space + 1;
        return list_step(run, pauli, input::number(&line[from..]), out);
    }
    list_steps(run, pauli, out)
}
