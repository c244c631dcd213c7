// The ledger at its limits: three calls of the service, each with one of the emulator behind it, are served
// from ledgers with counts at 0 and at 2^64 - 1, and after each its answer and the three counts are printed. The
// file stdout beside this folder was derived by hand from the scope and change request E8.
#![tactic(auto)]

use callers::Caller;
use ledger::Ledger;
use runner::Finished;
use std::fmt;
use std::fmt::Write;

// The C library's number of standard output.
const STDOUT_FILENO: i32 = 1;

// Standard output, for `write!`. A piece that is not taken stops none behind it.
#[derive(Drop)]
struct Output;

impl fmt::Write for Output {
    fn write_str(&mut self, text: &str) -> fmt::Result {
        io::write_all(STDOUT_FILENO, text.as_bytes());
        Ok(())
    }
}

// A run served for the caller, with room for one qubit or for none; what comes of it is printed.
fn call(ledger: Ledger, run: &[u8], has_room: bool, caller: Caller) -> Result<Ledger, fmt::Error> {
    let mut re = [1.0, 0.0];
    let mut im = [0.0, 0.0];
    let mut scratch_re = [0.0];
    let mut scratch_im = [0.0];
    let size = if has_room { 2 } else { 1 };
    let re = &mut re[..size];
    let im = &mut im[..size];
    let served = match caller {
        Caller::Service => ledger.serve(run, re, im, &mut scratch_re, &mut scratch_im),
        Caller::Emulator => {
            write!(Output, "emulator ")?;
            ledger.serve_emulated(run, re, im, &mut scratch_re, &mut scratch_im)
        }
    };
    match served.answer {
        Ok(Finished { width, steps }) => write!(Output, "finished {width} {steps}")?,
        Err(refusal) => write!(Output, "{refusal}")?,
    }
    print_counts(served.ledger)?;
    Ok(served.ledger)
}

// Offered, finished, refused.
fn print_counts(ledger: Ledger) -> fmt::Result {
    let Ledger {
        offered,
        finished,
        refused,
    } = ledger;
    writeln!(Output, " counts {offered} {finished} {refused}")
}

// A correction X of one qubit; a run of one qubit that ends behind its start field; the first again, in want of
// room. The emulator's are the first, with room and in want of it, and between them one of seven qubits.
fn calls(ledger: Ledger) -> fmt::Result {
    let run = b"\x01\x01\0\x01\x05\x11\0\0\x01\0\0\0\0\0\0\0\0\0\0\0\0\0\0\0\x06\0\0";
    write!(Output, "# from")?;
    print_counts(ledger)?;
    let finished = call(ledger, run, true, Caller::Service)?;
    let emulated = call(finished, run, true, Caller::Emulator)?;
    let cut = call(emulated, b"\x01\x01\0\x01", true, Caller::Service)?;
    let refused = call(cut, b"\x01\x01\0\x07\x06\0\0", true, Caller::Emulator)?;
    let last = call(refused, run, false, Caller::Service)?;
    call(last, run, false, Caller::Emulator)?;
    Ok(())
}

fn all() -> fmt::Result {
    let last = u64::MAX;
    calls(Ledger::new())?;
    for (offered, finished, refused) in [
        (last, 0, 0),
        (0, last, 0),
        (0, 0, last),
        (last, last, 0),
        (last, 0, last),
        (last, last, last),
    ] {
        calls(Ledger {
            offered,
            finished,
            refused,
        })?;
    }
    Ok(())
}

fn main() {
    // Output that is not taken is nobody's to be told.
    let _ = all();
}
