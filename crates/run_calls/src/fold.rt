// Runs without corrections, on one run, for either caller. Into an output: the folded run, and whether folding that gives
// it back with the identity. From a state: the run, against the folded run and then the end Pauli fired.
use crate::both::{self, State};
use crate::likeness::Likeness;
use crate::write;
use activepauli::ActivePauli;
use callers::Caller;
use folder::Folded;
use pauli_calls::show;
use run_text::line;

pub(crate) fn into(run: &[u8], out: &mut [u8], caller: Caller) {
    match folder::fold_run(run, out, caller) {
        Ok(folded) => judged(folded, out, caller),
        Err(refusal) => {
            show::refused(refusal);
            write::tail(out);
        }
    }
}

// The end Pauli and the folded length; the folded run, and whether the bytes past it are those that were lent.
fn judged(folded: Folded, out: &[u8], caller: Caller) {
    write::folded(folded);
    let Some(run) = out.get(..folded.size) else {
        return;
    };
    line::bytes(run);
    write::tail(&out[folded.size..]);
    write::bar();
    write::likeness(Likeness::of_equal(is_given_back(run, folded.end.nqubits, caller)));
}

// Whether folding a folded run that ends on so many qubits gives it back, with the identity on them.
fn is_given_back(run: &[u8], width: usize, caller: Caller) -> bool {
    let mut space = run_text::room(0xee);
    let Some(out) = space.get_mut(..run.len()) else {
        return false;
    };
    match folder::fold_run(run, out, caller) {
        Ok(folded) => {
            (folded.size == run.len()) & (folded.end == identity(width)) & (run == out)
        }
        Err(_) => false,
    }
}

fn identity(width: usize) -> ActivePauli {
    ActivePauli {
        nqubits: width,
        x: 0,
        z: 0,
        phase: 0,
    }
}

pub(crate) fn equal(run: &[u8], re: &[f64], im: &[f64], caller: Caller) {
    let mut out = run_text::room(0xee);
    match folder::fold_run(run, &mut out, caller) {
        Ok(folded) => {
            let Some(folded_run) = out.get(..folded.size) else {
                return;
            };
            let mut left = State::of(re, im, 0.0);
            let ran = left.run(run, caller);
            both::against(ran, &left, folded_run, folded.end, re, im, caller);
        }
        Err(refusal) => show::refused(refusal),
    }
}
