// The calls on runs for callers in other languages, in C's calling convention: each is one call of the third
// layer. Its answer is a struct of numbers: the verdict, and the value, which beside a refusal is a fixed one. A
// lent slice is a pointer and a length; that it is so long, and that no two overlap, is the caller's to see to.
//
// The floating-point mode is the process's, and no proof sees it. A program that is linked with -ffast-math, or that
// sets flush-to-zero itself, has subnormal numbers made zeros here too; another rounding mode changes last bits.
#![tactic(auto)]

pub mod emulated;
pub mod given;
pub mod seen;

ghost use Rattle.amplitudelaws.specs.Memory.{memory_of};
ghost use Rattle.std.specs.Prelude.{◌≡◌, false};
ghost use Rattle.paulilaws.specs.Pauli.{identity};
ghost use Rattle.framelaws.specs.Caller.{service, service_within};
ghost use Rattle.runlaws.specs.Reading.{read_at};
ghost use Rattle.runlaws.specs.Calls.{checking, running, carrying, seeking, folding, reporting, logging, judging};
ghost use Rattle.runlaws.specs.Run.{mapped};
ghost use Rattle.runlaws.specs.Ledger as history;
ghost use Rattle.activepauli.specs.Active.{active_of};
ghost use Rattle.checker.specs.Meaning.{survey_fields_of};
ghost use Rattle.ledger.specs.Meaning.{ledger_of};
ghost use Rattle.lines.specs.Calls.{line_call, line_left};
ghost use Rattle.listing.specs.Listing.{listed};
ghost use Rattle.reports.specs.Listing.{steps_listed};
ghost use Rattle.verdicts.specs.Verdict.{Seen};
ghost use Rattle.run_exports.specs.Nothing.{no_survey, no_ending, no_folding, no_report};
ghost use Rattle.run_exports.specs.Ending.{seen_ending_of};
ghost use Rattle.run_exports.specs.Folding.{seen_folding_of};
ghost use Rattle.run_exports.specs.Report.{report_seen, seen_report_of};
ghost use Rattle.run_exports.specs.Reading.{read_seen, seen_read_of};
ghost use Rattle.run_exports.specs.Past.{given_call, past_seen, given_of, past_of};

use active_seen::SeenActivePauli;
use activepauli::ActivePauli;
use callers::{Caller, Limits};
use given::{GivenStep, SeenPast};
use ledger::Ledger;
use seen::{SeenEnding, SeenFolding, SeenRead, SeenReport, SeenServed, SeenSurvey};
use steps::Cursor;
use verdicts::{SeenBit, SeenNumber};

// The field at a cursor: where its tag stands, and the width of the state there. Read by the service's rows, under any
// limit on the width.
#[unsafe(no_mangle)]
pub extern "C" fn naribhush_read(run: &[u8], at: usize, width: usize, limit: usize) -> SeenRead
    ensures { let read = read_at (service_within limit) run.now (record { at = at; width = width }) in
        seen_read_of result ≡ read_seen read }
{
    let cursor = Cursor { at, width };
    SeenRead::from(reader::read(run, cursor, Limits::Service(limit)))
}

#[unsafe(no_mangle)]
pub extern "C" fn naribhush_check_run(run: &[u8]) -> SeenSurvey
    ensures { Seen result.verdict (survey_fields_of result.survey) no_survey (checking service run.now) }
{
    SeenSurvey::from(checker::check_run(run, Caller::Service.limits()))
}

#[unsafe(no_mangle)]
pub extern "C" fn naribhush_check_within(run: &[u8], limit: usize) -> SeenSurvey
    ensures { Seen result.verdict (survey_fields_of result.survey) no_survey (checking (service_within limit) run.now) }
{
    SeenSurvey::from(checker::check_run(run, Limits::Service(limit)))
}

#[unsafe(no_mangle)]
pub extern "C" fn naribhush_run(
    run: &[u8],
    re: &mut [f64],
    im: &mut [f64],
    scratch_re: &mut [f64],
    scratch_im: &mut [f64],
) -> SeenEnding
    ensures { let m = memory_of re.old im.old scratch_re.old scratch_im.old in
        let did = running service run.now m in
        Seen result.verdict (seen_ending_of result) no_ending did.answer
        × (memory_of re.new im.new scratch_re.new scratch_im.new ≡ did.lent) }
{
    SeenEnding::from(runner::run_contiguous(run, re, im, scratch_re, scratch_im, Caller::Service))
}

#[unsafe(no_mangle)]
pub extern "C" fn naribhush_carry(run: &[u8], pauli: ActivePauli, out: &mut [u8]) -> SeenActivePauli
    ensures { let did = carrying service run.now (active_of pauli) out.old in
        Seen result.verdict (active_of result.pauli) (identity 0) did.answer × (out.new ≡ did.lent) }
{
    SeenActivePauli::from(carrier::carry_run(run, pauli, out, Caller::Service))
}

// Some Pauli on the start qubits whose carrying ends in this one on the last; 25 where there is none.
#[unsafe(no_mangle)]
pub extern "C" fn naribhush_seek(run: &[u8], end: ActivePauli) -> SeenActivePauli
    ensures { Seen result.verdict (active_of result.pauli) (identity 0) (seeking service run.now (active_of end)) }
{
    SeenActivePauli::from(seeker::seek_start(run, end, Caller::Service))
}

// The run without its corrections, and the Pauli that is fired behind it instead.
#[unsafe(no_mangle)]
pub extern "C" fn naribhush_fold(run: &[u8], out: &mut [u8]) -> SeenFolding
    ensures { let did = folding service run.now out.old in
        Seen result.verdict (seen_folding_of result) no_folding did.answer × (out.new ≡ did.lent) }
{
    SeenFolding::from(folder::fold_run(run, out, Caller::Service))
}

// Whether the sign or the branch of step `number`, from 0 at the first field behind start, is changed where the Pauli is
// carried, and the qubits that are the cause; 20 where the run has no such step.
#[unsafe(no_mangle)]
pub extern "C" fn naribhush_report(run: &[u8], pauli: ActivePauli, number: usize) -> SeenReport
    ensures { let told = reporting service run.now (active_of pauli) number in
        Seen result.verdict (seen_report_of result) no_report (mapped report_seen told) }
{
    SeenReport::from(reporter::report_step(run, pauli, number, Caller::Service))
}

// The log of a chip's frame unit that carries the Pauli. The number is how many bytes it has; what the output held past them
// is left.
#[unsafe(no_mangle)]
pub extern "C" fn naribhush_log(run: &[u8], pauli: ActivePauli, out: &mut [u8]) -> SeenNumber
    ensures { let did = logging service run.now (active_of pauli) out.old in
        Seen result.verdict result.number 0 did.answer × (out.new ≡ did.lent) }
{
    SeenNumber::from(framelog::log_run(run, pauli, out, Caller::Service))
}

// Whether a log, whoever made it, is the one that carrying the Pauli gives; 24 where that one has another
// length.
#[unsafe(no_mangle)]
pub extern "C" fn naribhush_judge(run: &[u8], pauli: ActivePauli, log: &[u8]) -> SeenBit
    ensures { let judged = judging service run.now (active_of pauli) log.now in
        Seen result.verdict result.bit false judged }
{
    SeenBit::from(framelog::judge_log(run, pauli, log, Caller::Service))
}

// The Pauli past one step, which may be any: 3, 4 and 10 as carrying looks at them, 14 where no step has the tag or
// a sign or a branch is over 1.
#[unsafe(no_mangle)]
pub extern "C" fn naribhush_past(pauli: ActivePauli, step: GivenStep) -> SeenPast
    ensures { past_of result ≡ past_seen (given_call (active_of pauli) (given_of step)) }
{
    SeenPast::from(given::past(pauli, step))
}

// The whole text that the program `bench` prints of a run.
#[unsafe(no_mangle)]
pub extern "C" fn naribhush_listing(run: &[u8], out: &mut [u8]) -> SeenNumber
    ensures { let text = listed run.now in
        let old = out.old in
        Seen result.verdict result.number 0 (line_call text old) × (out.new ≡ line_left text old) }
{
    SeenNumber::from(listing::list_run(run, out))
}

// A line for each step of a run that carries the Pauli, as the program `report` prints them.
#[unsafe(no_mangle)]
pub extern "C" fn naribhush_list_steps(run: &[u8], pauli: ActivePauli, out: &mut [u8]) -> SeenNumber
    ensures { let text = steps_listed run.now (active_of pauli) in
        let old = out.old in
        Seen result.verdict result.number 0 (line_call text old) × (out.new ≡ line_left text old) }
{
    SeenNumber::from(reports::list_steps(run, pauli, out))
}

#[unsafe(no_mangle)]
pub extern "C" fn naribhush_serve(
    ledger: Ledger,
    run: &[u8],
    re: &mut [f64],
    im: &mut [f64],
    scratch_re: &mut [f64],
    scratch_im: &mut [f64],
) -> SeenServed
    ensures fact { let m = memory_of re.old im.old scratch_re.old scratch_im.old in
        let did = running service run.now m in
        Seen result.ending.verdict (seen_ending_of result.ending) no_ending did.answer
        × (memory_of re.new im.new scratch_re.new scratch_im.new ≡ did.lent) }
    ensures ledger_value { let m = memory_of re.old im.old scratch_re.old scratch_im.old in
        let call : history.Call = record { run = run.now; memory = m } in
        ledger_of result.ledger ≡ history.after (history.serving call) (ledger_of ledger) }
{
    let served = ledger.serve(run, re, im, scratch_re, scratch_im);
    SeenServed {
        ending: SeenEnding::from(served.answer),
        ledger: served.ledger,
    }
}
