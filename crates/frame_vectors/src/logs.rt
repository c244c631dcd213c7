// Logs of frames: written, judged, and judged when they are damaged.
use crate::name::Call;
use activepauli::ActivePauli;
use callers::Caller;
use kernel_calls::read;
use pauli_calls::{form, show};
use refusals::{Refusal, RowAt};
use report_calls::{numbers, write};
use run_text::line;

// Behind the run stand the log, where it is judged, then a Pauli and, but for that call, one more number.
pub(crate) fn call(call: Call, text: &[u8], caller: Caller) -> Option<()> {
    let mut space = run_text::room(0);
    let (run, rest) = run_text::first(text, &mut space)?;
    match call {
        Call::Log => written(run, numbers(rest, 5)?, caller),
        Call::Judge => judged(run, rest, caller),
        Call::Damaged => damaged(run, numbers(rest, 5)?, caller),
    }
}

// The log is lent an output of the length that a word says.
fn written(run: &[u8], words: [u64; 12], caller: Caller) -> Option<()> {
    let mut space = report_calls::dots();
    let out = space.get_mut(..form::index(words[4]))?;
    write::length(framelog::log_run(run, read::first_pauli(words), out, caller));
    write::bar();
    show::number(out.len() as u64);
    line::bytes(out);
    Some(())
}

// The log is bytes in text as the run is.
fn judged(run: &[u8], text: &[u8], caller: Caller) -> Option<()> {
    let mut space = run_text::room(0);
    let (log, rest) = run_text::first(text, &mut space)?;
    let pauli = read::first_pauli(numbers(rest, 4)?);
    show::answer(
        framelog::judge_log(run, pauli, log, caller),
        |right| write::word(if right { b"yes" } else { b"no" }),
    );
    Some(())
}

// The right log and others near it, which differ from it by what a word says.
fn damaged(run: &[u8], words: [u64; 12], caller: Caller) -> Option<()> {
    let pauli = read::first_pauli(words);
    let xor = u8::try_from(words[4]).ok()?;
    let mut space = run_text::room(0);
    match framelog::log_run(run, pauli, &mut space, caller) {
        Ok(size) => around(run, pauli, xor, &mut space, size, caller),
        Err(refusal) => show::refused(refusal),
    }
    Some(())
}

// The log is the first bytes of the space: it, damaged in each byte, one byte short, one byte long.
fn around(run: &[u8], pauli: ActivePauli, xor: u8, space: &mut [u8], size: usize, caller: Caller) {
    if (size == 0) | (space.len() <= size) {
        return;
    }
    write::size(size);
    write::bar();
    shortly(run, pauli, &space[..size], caller);
    each_byte(run, pauli, xor, &mut space[..size], caller);
    shortly(run, pauli, &space[..size - 1], caller);
    shortly(run, pauli, &space[..=size], caller);
}

fn each_byte(run: &[u8], pauli: ActivePauli, xor: u8, log: &mut [u8], caller: Caller) {
    for i in 0..log.len() {
        let kept = log[i];
        log[i] = kept ^ xor;
        shortly(run, pauli, log, caller);
        log[i] = kept;
    }
}

// The verdict in a letter, or the row between < and >.
fn shortly(run: &[u8], pauli: ActivePauli, log: &[u8], caller: Caller) {
    match framelog::judge_log(run, pauli, log, caller) {
        Ok(right) => show::byte(if right { b'y' } else { b'n' }),
        Err(Refusal::Whole(row) | Refusal::At(RowAt { row, .. })) => {
            show::byte(b'<');
            show::number(u64::from(u8::from(row)));
            show::byte(b'>');
        }
    }
}
