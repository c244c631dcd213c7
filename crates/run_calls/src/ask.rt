// The calls, by what they are lent.
use crate::{both, fold, listed, merge, seek, text, write};
use activepauli::ActivePauli;
use callers::{Caller, Limits};
use kernel_calls::read;
use pauli_calls::{form, show};
use steps::{Cursor, Step, tag};

pub(crate) fn call(call: u8, run: &[u8], words: [u64; 12], lent: &[u8]) -> Option<()> {
    let caller = text::caller(call);
    let pauli = read::first_pauli(words);
    match call {
        b'y' | b'Y' => carried(run, pauli, form::index(words[4]), caller),
        b'o' | b'O' => folded(run, form::index(words[0]), caller),
        b'w' => listed::both(run, pauli),
        b'g' => past(run, words, lent),
        b'h' | b'H' | b'l' | b'L' | b'n' | b'N' => on_state(call, run, words, lent),
        _ => {
            alone(call, run, words);
            Some(())
        }
    }
}

// A call that nothing is lent to.
fn alone(call: u8, run: &[u8], words: [u64; 12]) {
    let caller = text::caller(call);
    let pauli = read::first_pauli(words);
    match call {
        b'd' => write::field(run, form::index(words[0])),
        b't' => write::start(fields::start(run)),
        b'p' => step(run, words, Limits::Service(form::index(words[2]))),
        b'P' => step(run, words, caller.limits()),
        b's' => cuts(run, caller.limits()),
        b'e' | b'E' => merge::merged(run, pauli, read::second_pauli(words), caller),
        b'r' | b'R' => seek::sought(run, pauli, caller),
        _ => write::check(checker::check_run(run, caller.limits())),
    }
}

fn step(run: &[u8], words: [u64; 12], limits: Limits) {
    let cursor = Cursor {
        at: form::index(words[0]),
        width: form::index(words[1]),
    };
    write::read(reader::read(run, cursor, limits));
}

// The check of the run cut at each byte, a comma after each.
fn cuts(run: &[u8], limits: Limits) {
    for cut in 0..run.len() {
        write::check(checker::check_run(&run[..cut], limits));
        show::byte(b',');
    }
}

// Carrying and folding are lent an output of the length that a word says.
fn carried(run: &[u8], pauli: ActivePauli, size: usize, caller: Caller) -> Option<()> {
    let mut space = run_text::room(0xee);
    let out = space.get_mut(..size)?;
    write::carry(carrier::carry_run(run, pauli, out, caller), run, out);
    Some(())
}

fn folded(run: &[u8], size: usize, caller: Caller) -> Option<()> {
    let mut space = run_text::room(0xee);
    fold::into(run, space.get_mut(..size)?, caller);
    Some(())
}

// A Pauli past a step: the run is the step's tag alone, and the two floats are the buffer.
fn past(run: &[u8], words: [u64; 12], lent: &[u8]) -> Option<()> {
    let [tag] = run else {
        return None;
    };
    let mut floats = [0.0; 2];
    let _ = read::floats(lent, &mut floats);
    let step = step_of(*tag, words, floats);
    write::past(passing::past(read::first_pauli(words), step));
    Some(())
}

// The step of a tag, on the second Pauli; word 8 is the sign or the branch and word 9 the pivot.
fn step_of(tag: u8, words: [u64; 12], floats: [f64; 2]) -> Step {
    let pauli = read::second_pauli(words);
    let flag = words[8] == 1;
    let [first, second] = floats;
    match tag {
        tag::ROTATION => Step::Rotation(pauli, flag, first, second),
        tag::PROMOTION => Step::Promotion(first, second),
        tag::PROJECTION => Step::Projection(pauli, form::index(words[9]), flag, first),
        tag::QUARTER_TURN => Step::QuarterTurn(pauli),
        _ => Step::Correction(pauli),
    }
}

// Running and comparing are lent re and im. A buffer that cannot be read is taken for empty.
fn on_state(call: u8, run: &[u8], words: [u64; 12], lent: &[u8]) -> Option<()> {
    let mut re = [0.0; 160];
    let mut im = [0.0; 160];
    let (re, rest) = floats(lent, &mut re);
    let (im, _) = floats(rest, &mut im);
    let caller = text::caller(call);
    match call {
        b'h' | b'H' => return both::carried(run, read::first_pauli(words), re, im, caller),
        b'l' | b'L' => fold::equal(run, re, im, caller),
        _ => ran(run, words, re, im, caller),
    }
    Some(())
}

fn floats<'a, 'b>(text: &'a [u8], out: &'b mut [f64]) -> (&'b mut [f64], &'a [u8]) {
    match read::floats(text, out) {
        Some(lent) => lent,
        None => (&mut [], text),
    }
}

// Running is lent two scratch buffers too, of the lengths that the words say, at most 160.
fn ran(run: &[u8], words: [u64; 12], re: &mut [f64], im: &mut [f64], caller: Caller) {
    let mut scratch_re = [7.0; 160];
    let mut scratch_im = [7.5; 160];
    let scratch_re = &mut scratch_re[..form::index(words[0]).min(160)];
    let scratch_im = &mut scratch_im[..form::index(words[1]).min(160)];
    write::ran(runner::run_contiguous(run, re, im, scratch_re, scratch_im, caller));
    write::state(re, im);
    write::state(scratch_re, scratch_im);
}
