// Reading, checking, running, carrying, seeking, folding, reporting, logging, judging and serving for the emulator, a board of six
// qubits: a start over six, or a promotion at six, is refused by 21.
// The service's ledger counts none of its runs, and is handed back as it was.
ghost use Rattle.amplitudelaws.specs.Memory.{memory_of};
ghost use Rattle.std.specs.Prelude.{◌≡◌, false};
ghost use Rattle.paulilaws.specs.Pauli.{identity};
ghost use Rattle.framelaws.specs.Caller.{emulator};
ghost use Rattle.runlaws.specs.Reading.{read_at};
ghost use Rattle.runlaws.specs.Calls.{checking, running, carrying, seeking, folding, reporting, logging, judging};
ghost use Rattle.runlaws.specs.Run.{mapped};
ghost use Rattle.runlaws.specs.Ledger as history;
ghost use Rattle.activepauli.specs.Active.{active_of};
ghost use Rattle.checker.specs.Meaning.{survey_fields_of};
ghost use Rattle.ledger.specs.Meaning.{ledger_of};
ghost use Rattle.verdicts.specs.Verdict.{Seen};
ghost use Rattle.run_exports.specs.Nothing.{no_survey, no_ending, no_folding, no_report};
ghost use Rattle.run_exports.specs.Ending.{seen_ending_of};
ghost use Rattle.run_exports.specs.Folding.{seen_folding_of};
ghost use Rattle.run_exports.specs.Report.{report_seen, seen_report_of};
ghost use Rattle.run_exports.specs.Reading.{read_seen, seen_read_of};

use crate::seen::{SeenEnding, SeenFolding, SeenRead, SeenReport, SeenServed, SeenSurvey};
use active_seen::SeenActivePauli;
use activepauli::ActivePauli;
use callers::{Caller, Limits};
use ledger::Ledger;
use steps::Cursor;
use verdicts::{SeenBit, SeenNumber};

#[unsafe(no_mangle)]
pub extern "C" fn naribhush_read_emulated(run: &[u8], at: usize, width: usize) -> SeenRead
    ensures { let read = read_at emulator run.now (record { at = at; width = width }) in
        seen_read_of result ≡ read_seen read }
{
    let cursor = Cursor { at, width };
    SeenRead::from(reader::read(run, cursor, Limits::Emulator))
}

#[unsafe(no_mangle)]
pub extern "C" fn naribhush_check_emulated(run: &[u8]) -> SeenSurvey
    ensures { Seen result.verdict (survey_fields_of result.survey) no_survey (checking emulator run.now) }
{
    SeenSurvey::from(checker::check_run(run, Limits::Emulator))
}

#[unsafe(no_mangle)]
pub extern "C" fn naribhush_run_emulated(
    run: &[u8],
    re: &mut [f64],
    im: &mut [f64],
    scratch_re: &mut [f64],
    scratch_im: &mut [f64],
) -> SeenEnding
    ensures { let m = memory_of re.old im.old scratch_re.old scratch_im.old in
        let did = running emulator run.now m in
        Seen result.verdict (seen_ending_of result) no_ending did.answer
        × (memory_of re.new im.new scratch_re.new scratch_im.new ≡ did.lent) }
{
    SeenEnding::from(runner::run_contiguous(run, re, im, scratch_re, scratch_im, Caller::Emulator))
}

#[unsafe(no_mangle)]
pub extern "C" fn naribhush_carry_emulated(
    run: &[u8],
    pauli: ActivePauli,
    out: &mut [u8],
) -> SeenActivePauli
    ensures { let did = carrying emulator run.now (active_of pauli) out.old in
        Seen result.verdict (active_of result.pauli) (identity 0) did.answer × (out.new ≡ did.lent) }
{
    SeenActivePauli::from(carrier::carry_run(run, pauli, out, Caller::Emulator))
}

#[unsafe(no_mangle)]
pub extern "C" fn naribhush_seek_emulated(run: &[u8], end: ActivePauli) -> SeenActivePauli
    ensures { Seen result.verdict (active_of result.pauli) (identity 0) (seeking emulator run.now (active_of end)) }
{
    SeenActivePauli::from(seeker::seek_start(run, end, Caller::Emulator))
}

#[unsafe(no_mangle)]
pub extern "C" fn naribhush_fold_emulated(run: &[u8], out: &mut [u8]) -> SeenFolding
    ensures { let did = folding emulator run.now out.old in
        Seen result.verdict (seen_folding_of result) no_folding did.answer × (out.new ≡ did.lent) }
{
    SeenFolding::from(folder::fold_run(run, out, Caller::Emulator))
}

#[unsafe(no_mangle)]
pub extern "C" fn naribhush_report_emulated(
    run: &[u8],
    pauli: ActivePauli,
    number: usize,
) -> SeenReport
    ensures { let told = reporting emulator run.now (active_of pauli) number in
        Seen result.verdict (seen_report_of result) no_report (mapped report_seen told) }
{
    SeenReport::from(reporter::report_step(run, pauli, number, Caller::Emulator))
}

#[unsafe(no_mangle)]
pub extern "C" fn naribhush_log_emulated(
    run: &[u8],
    pauli: ActivePauli,
    out: &mut [u8],
) -> SeenNumber
    ensures { let did = logging emulator run.now (active_of pauli) out.old in
        Seen result.verdict result.number 0 did.answer × (out.new ≡ did.lent) }
{
    SeenNumber::from(framelog::log_run(run, pauli, out, Caller::Emulator))
}

#[unsafe(no_mangle)]
pub extern "C" fn naribhush_judge_emulated(run: &[u8], pauli: ActivePauli, log: &[u8]) -> SeenBit
    ensures { let judged = judging emulator run.now (active_of pauli) log.now in
        Seen result.verdict result.bit false judged }
{
    SeenBit::from(framelog::judge_log(run, pauli, log, Caller::Emulator))
}

#[unsafe(no_mangle)]
pub extern "C" fn naribhush_serve_emulated(
    ledger: Ledger,
    run: &[u8],
    re: &mut [f64],
    im: &mut [f64],
    scratch_re: &mut [f64],
    scratch_im: &mut [f64],
) -> SeenServed
    ensures fact { let m = memory_of re.old im.old scratch_re.old scratch_im.old in
        let did = running emulator run.now m in
        Seen result.ending.verdict (seen_ending_of result.ending) no_ending did.answer
        × (memory_of re.new im.new scratch_re.new scratch_im.new ≡ did.lent) }
    ensures ledger_value { let m = memory_of re.old im.old scratch_re.old scratch_im.old in
        let call : history.Call = record { run = run.now; memory = m } in
        ledger_of result.ledger ≡ history.after (history.emulating call) (ledger_of ledger) }
{
    let served = ledger.serve_emulated(run, re, im, scratch_re, scratch_im);
    SeenServed {
        ending: SeenEnding::from(served.answer),
        ledger: served.ledger,
    }
}
