// What is written of an answer: numbers in decimal, bytes in hexadecimal between brackets.
ghost use Rattle.std.specs.Prelude.{◌≤◌};

use crate::both::State;
use crate::likeness::Likeness;
use activepauli::ActivePauli;
use checker::Survey;
use folder::Folded;
use kernel_calls::write;
use passing::Passage;
use pauli_calls::show;
use refusals::{Refusal, Row, RowAt};
use run_text::line;
use runner::Finished;
use steps::{Cursor, Read, Step};

// The C library's number of standard output.
const STDOUT_FILENO: i32 = 1;

fn word(name: &[u8]) {
    io::write_all(STDOUT_FILENO, name);
}

// The tag, where the next field begins, and the body.
pub(crate) fn field(run: &[u8], at: usize) {
    show::answer(fields::field(run, at), |head| {
        show::number(u64::from(head.tag));
        write::number(head.next as u64);
    });
    line::hex(fields::body(run, at));
}

pub(crate) fn start(answer: Result<usize, RowAt>) {
    match answer {
        Ok(width) => show::number(width as u64),
        Err(_) => word(b"none"),
    }
}

fn float(x: f64) {
    show::byte(b' ');
    write::float(x);
}

fn pair(a: f64, b: f64) {
    float(a);
    float(b);
}

fn step(step: Step) {
    match step {
        Step::Rotation(pauli, sign, c, s) => {
            word(b"rotation");
            write::pauli(pauli);
            write::number(u64::from(sign));
            pair(c, s);
        }
        Step::Promotion(c, q) => {
            word(b"promotion");
            pair(c, q);
        }
        Step::Projection(pauli, pivot, branch, invnorm) => {
            word(b"projection");
            write::pauli(pauli);
            write::number(pivot as u64);
            write::number(u64::from(branch));
            float(invnorm);
        }
        Step::Correction(pauli) => {
            word(b"correction");
            write::pauli(pauli);
        }
        Step::QuarterTurn(pauli) => {
            word(b"quarter-turn");
            write::pauli(pauli);
        }
    }
}

fn cursor(cursor: Cursor) {
    write::number(cursor.at as u64);
    write::number(cursor.width as u64);
}

pub(crate) fn read(answer: Result<Read, RowAt>) {
    show::answer(answer, |read| match read {
        Read::Step(found, next) => {
            step(found);
            cursor(next);
        }
        Read::End(next) => {
            word(b"end");
            cursor(next);
        }
    });
}

// The last width, the number of steps, the greatest width, the amplitudes that the scratch must hold.
pub(crate) fn check(answer: Result<Survey, RowAt>) {
    show::answer(answer, |survey| {
        word(b"run");
        write::number(survey.width as u64);
        write::number(survey.steps as u64);
        write::number(survey.greatest as u64);
        write::number(survey.scratch as u64);
    });
}

pub(crate) fn ran(answer: Result<Finished, Refusal>) {
    show::answer(answer, |finished| {
        word(b"finished");
        write::number(finished.width as u64);
        write::number(finished.steps as u64);
    });
}

pub(crate) fn state(re: &[f64], im: &[f64]) {
    write::floats(re);
    write::floats(im);
}

// The step that is left behind, and the Pauli then.
pub(crate) fn past(answer: Result<Passage, Row>) {
    show::answer(answer, |passage| {
        step(passage.step);
        write::pauli(passage.pauli);
    });
}

// The width of a start that was found.
pub(crate) fn found(width: usize) {
    word(b"start");
    write::number(width as u64);
}

// The end Pauli, and where the output differs from the run; or the refusal, and whether the output is as it was lent.
pub(crate) fn carry(answer: Result<ActivePauli, Refusal>, run: &[u8], out: &[u8]) {
    carried(answer);
    match answer {
        Ok(_) => output(run, out),
        Err(_) => tail(out),
    }
}

pub(crate) fn carried(answer: Result<ActivePauli, Refusal>) {
    show::answer(answer, |end| {
        word(b"carried");
        write::pauli(end);
    });
}

// Where and how an output differs from the run that was carried, and whether the bytes past it are those
// that were lent.
fn output(run: &[u8], out: &[u8]) {
    if out.len() < run.len() {
        return;
    }
    let (carried, past) = out.split_at(run.len());
    for (at, (old, new)) in run.iter().zip(carried).enumerate() {
        if old != new {
            write::number(at as u64);
            show::byte(b':');
            io::print_hex(STDOUT_FILENO, u64::from(*new), 2);
        }
    }
    tail(past);
}

// Whether the bytes are those that were lent.
pub(crate) fn tail(out: &[u8]) {
    if out.iter().all(|byte| *byte == 0xee) {
        word(b" kept");
    } else {
        word(b" written");
    }
}

pub(crate) fn folded(folded: Folded) {
    word(b"folded");
    write::pauli(folded.end);
    write::number(folded.size as u64);
}

// For each basis the amplitudes of both sides; then how they compare.
pub(crate) fn sides(dim: usize, left: &State, right: &State)
    requires { dim ≤ 160 }
{
    let mut worst = Likeness::Same;
    for b in 0..dim {
        show::number(b as u64);
        pair(left.re[b], left.im[b]);
        pair(right.re[b], right.im[b]);
        bar();
        worst = worst.and(Likeness::of_floats(left.re[b], right.re[b]));
        worst = worst.and(Likeness::of_floats(left.im[b], right.im[b]));
    }
    likeness(worst);
}

// Between two answers on one line.
pub(crate) fn bar() {
    word(b" | ");
}

// `nan` where floats are alike but for NaNs on both sides.
pub(crate) fn likeness(likeness: Likeness) {
    match likeness {
        Likeness::Same => word(b"same"),
        Likeness::BothNan => word(b"nan"),
        Likeness::Differ => word(b"differ"),
    }
}
