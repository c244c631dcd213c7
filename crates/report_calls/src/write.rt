// What is written of an answer: numbers in decimal, masks after 0x.
use kernel_calls::write;
use pauli_calls::show;
use refusals::Refusal;
use reporter::{Flag, Framed};
use std::fmt;
use steps::Step;

// The C library's number of standard output.
const STDOUT_FILENO: i32 = 1;

pub fn word(name: &[u8]) {
    io::write_all(STDOUT_FILENO, name);
}

pub(crate) fn report(answer: Result<Option<Flag>, Refusal>) {
    show::answer(answer, |report| match report {
        Some(flag) => flagged(flag),
        None => word(b"none"),
    });
}

fn flagged(flag: Flag) {
    if flag.changed {
        word(b"changed 0x");
    } else {
        word(b"kept 0x");
    }
    io::print_hex(STDOUT_FILENO, flag.mask, 1);
}

pub(crate) fn found(answer: Result<Framed, Refusal>) {
    show::answer(answer, |framed| {
        word(b"found");
        write::pauli(framed.frame);
        kind(framed.step);
    });
}

fn kind(step: Step) {
    match step {
        Step::Rotation(..) => word(b" rotation"),
        Step::Promotion(..) => word(b" promotion"),
        Step::Projection(..) => word(b" projection"),
        Step::Correction(_) => word(b" correction"),
        Step::QuarterTurn(_) => word(b" quarter-turn"),
    }
}

// The length of a text or a log, or the refusal.
pub fn length<R: fmt::Display + Drop>(answer: Result<usize, R>) {
    show::answer(answer, size);
}

pub fn size(n: usize) {
    word(b"length");
    write::number(n as u64);
}

// Between two answers on one line.
pub fn bar() {
    word(b" | ");
}
