// The service's ledger: runs offered, finished and refused, in 64 bits, each going round to 0 after
// 2^64 - 1. Only running is offered to it; checking and carrying are not. It counts none of the emulator's runs.
#![tactic(auto)]

ghost use Rattle.amplitudelaws.specs.Memory.{memory_of};
ghost use Rattle.std.specs.Prelude.{◌≡◌};
ghost use Rattle.framelaws.specs.Caller.{service, emulator};
ghost use Rattle.runlaws.specs.Calls.{running};
ghost use Rattle.runlaws.specs.Ledger as history;
ghost use Rattle.refusals.specs.Refusal.{refusal_answer_of};
ghost use Rattle.runner.specs.Meaning.{finished_of};
ghost use Rattle.ledger.specs.Meaning.{ledger_of};

use callers::Caller;
use refusals::Refusal;
use runner::Finished;

#[repr(C)]
#[derive(Clone, Copy)]
pub struct Ledger {
    pub offered: u64,
    pub finished: u64,
    pub refused: u64,
}

// A run's answer, and the ledger behind it.
#[derive(Clone, Copy)]
pub struct Served {
    pub answer: Result<Finished, Refusal>,
    pub ledger: Ledger,
}

impl Ledger {
    pub fn new() -> Ledger
        ensures { ledger_of result ≡ history.opened }
    {
        Ledger {
            offered: 0,
            finished: 0,
            refused: 0,
        }
    }

    // One call more, finished or refused.
    fn counted(self, finished: bool) -> Ledger
        ensures { ledger_of result ≡ history.counted finished (ledger_of self) }
    {
        Ledger {
            offered: one_more(self.offered, true),
            finished: one_more(self.finished, finished),
            refused: one_more(self.refused, !finished),
        }
    }

    // Runs, and counts the call.
    pub fn serve(
        self,
        run: &[u8],
        re: &mut [f64],
        im: &mut [f64],
        scratch_re: &mut [f64],
        scratch_im: &mut [f64],
    ) -> Served
        ensures fact { let m = memory_of re.old im.old scratch_re.old scratch_im.old in
            let did = running service run.now m in
            (refusal_answer_of finished_of result.answer ≡ did.answer)
            × (memory_of re.new im.new scratch_re.new scratch_im.new ≡ did.lent) }
        ensures ledger_value { let m = memory_of re.old im.old scratch_re.old scratch_im.old in
            let call : history.Call = record { run = run.now; memory = m } in
            ledger_of result.ledger ≡ history.after (history.serving call) (ledger_of self) }
    {
        let answer = runner::run_contiguous(run, re, im, scratch_re, scratch_im, Caller::Service);
        let ledger = self.counted(answer.is_ok());
        Served { answer, ledger }
    }

    // Runs for the emulator, and counts nothing: two calls, since they count differently.
    pub fn serve_emulated(
        self,
        run: &[u8],
        re: &mut [f64],
        im: &mut [f64],
        scratch_re: &mut [f64],
        scratch_im: &mut [f64],
    ) -> Served
        ensures fact { let m = memory_of re.old im.old scratch_re.old scratch_im.old in
            let did = running emulator run.now m in
            (refusal_answer_of finished_of result.answer ≡ did.answer)
            × (memory_of re.new im.new scratch_re.new scratch_im.new ≡ did.lent) }
        ensures ledger_value { let m = memory_of re.old im.old scratch_re.old scratch_im.old in
            let call : history.Call = record { run = run.now; memory = m } in
            ledger_of result.ledger ≡ history.after (history.emulating call) (ledger_of self) }
    {
        let answer = runner::run_contiguous(run, re, im, scratch_re, scratch_im, Caller::Emulator);
        Served {
            answer,
            ledger: self,
        }
    }
}

// One more where `more`, going round to 0.
fn one_more(count: u64, more: bool) -> u64
    ensures { result ≡ history.raised_by more count }
{
    count.wrapping_add(u64::from(more))
}
