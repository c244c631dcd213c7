// The calls, by what they are asked on.
use crate::{read, write};
use kernels::{
    ActivePauliAction, PrecomputedActivePauliMeasurementKernel,
    PrecomputedActivePauliRotationKernel,
};
use pauli_calls::{form, show};
use refusals::Row;

pub(crate) fn paulis(call: u8, words: [u64; 12]) {
    let a = read::pauli(words, 0);
    let b = read::pauli(words, 4);
    let q = form::index(words[4]);
    match call {
        b'v' => show::number(u64::from(a.is_pauli())),
        b'h' => show::bit(a.is_hermitian()),
        b'm' => show::answer(a.mul(b), write::made),
        b'a' => show::bit(a.anticommutes(b)),
        b'e' => show::answer(a.raised(form::phase(words[4])), write::made),
        b'd' => show::answer(a.dropped(q), write::made),
        b'x' => show::bit(a.x_bit(q)),
        _ => show::bit(a.z_bit(q)),
    }
}

pub(crate) fn kernels(call: u8, words: [u64; 12]) {
    let pauli = read::pauli(words, 0);
    match call {
        b'A' => show::answer(ActivePauliAction::new(read::string(words)), write::action),
        b'R' => {
            let c = read::float(words[4]);
            let s = read::float(words[5]);
            let kernel = PrecomputedActivePauliRotationKernel::new(pauli, c, s);
            show::answer(kernel, write::rotation_kernel);
        }
        b'M' => {
            let pivot = form::index(words[4]);
            let kernel = PrecomputedActivePauliMeasurementKernel::with_pivot(pauli, pivot);
            show::answer(kernel, write::measurement_kernel);
        }
        _ => {
            let kernel = PrecomputedActivePauliMeasurementKernel::from_pauli(pauli);
            show::answer(kernel, write::measurement_kernel);
        }
    }
}

fn step(answer: Result<(), Row>) {
    show::answer(answer, |()| write::done());
}

// A call that is lent a state.
pub(crate) fn on_state(call: u8, words: [u64; 12], text: &[u8]) -> Option<()> {
    let mut re = [0.0; 160];
    let mut im = [0.0; 160];
    let (re, rest) = read::floats(text, &mut re)?;
    let (im, rest) = read::floats(rest, &mut im)?;
    if !rest.is_empty() {
        return None;
    }
    outcome(call, words, re, im);
    write::floats(re);
    write::floats(im);
    Some(())
}

fn outcome(call: u8, words: [u64; 12], re: &mut [f64], im: &mut [f64]) {
    let pauli = read::pauli(words, 0);
    match call {
        b'r' => {
            let sign = words[4] == 1;
            let c = read::float(words[5]);
            let s = read::float(words[6]);
            step(rotation::rotate_contiguous_active(re, im, pauli, sign, c, s));
        }
        b'p' => {
            let n = form::index(words[0]);
            let c = read::float(words[1]);
            let q = read::float(words[2]);
            step(promotion::promote_contiguous_active(re, im, n, c, q));
        }
        b'b' => {
            let pivot = form::index(words[4]);
            let branch = words[5] == 1;
            let weight = measurement::probability_contiguous(re, im, pauli, pivot, branch);
            show::answer(weight, write::float);
        }
        _ => step(correction::correct_contiguous_active(re, im, pauli)),
    }
}

// A projection, which is lent a scratch too.
pub(crate) fn project(words: [u64; 12], text: &[u8]) -> Option<()> {
    let mut re = [0.0; 160];
    let mut im = [0.0; 160];
    let mut scratch_re = [0.0; 160];
    let mut scratch_im = [0.0; 160];
    let (re, rest) = read::floats(text, &mut re)?;
    let (im, rest) = read::floats(rest, &mut im)?;
    let (scratch_re, rest) = read::floats(rest, &mut scratch_re)?;
    let (scratch_im, rest) = read::floats(rest, &mut scratch_im)?;
    if !rest.is_empty() {
        return None;
    }
    let pauli = read::pauli(words, 0);
    let pivot = form::index(words[4]);
    let branch = words[5] == 1;
    let invnorm = read::float(words[6]);
    step(measurement::project_contiguous(
        re, im, scratch_re, scratch_im, pauli, pivot, branch, invnorm,
    ));
    write::floats(re);
    write::floats(im);
    write::floats(scratch_re);
    write::floats(scratch_im);
    Some(())
}
