// What is written of an answer: numbers in decimal, words as they are read.
use paulis::PauliString;
use std::fmt;
use std::fmt::Write;

// The C library's number of standard output.
const STDOUT_FILENO: i32 = 1;

// Written to as far as it takes what is written.
#[derive(Drop)]
struct Stdout;

impl fmt::Write for Stdout {
    fn write_str(&mut self, text: &str) -> fmt::Result {
        io::write_all(STDOUT_FILENO, text.as_bytes());
        Ok(())
    }
}

pub fn byte(b: u8) {
    io::write_all(STDOUT_FILENO, &[b]);
}

pub fn unread() {
    io::write_all(STDOUT_FILENO, b"unread");
}

pub fn number(n: u64) {
    io::print_decimal(STDOUT_FILENO, n);
}

pub fn refused<R: fmt::Display + Drop>(refusal: R) {
    let _ = write!(Stdout, "{refusal}");
}

// The value, as `write` writes it, or the refusal.
pub fn answer<T, R: fmt::Display + Drop, F: FnOnce(T)>(answer: Result<T, R>, write: F)
    requires { F.IsAlwaysCallable write }
{
    match answer {
        Ok(value) => write(value),
        Err(refusal) => refused(refusal),
    }
}

fn word(n: u64) {
    byte(b' ');
    io::print_hex(STDOUT_FILENO, n, 16);
}

pub(crate) fn mask(words: [u64; 4]) {
    for n in words {
        word(n);
    }
}

pub(crate) fn pauli(pauli: PauliString) {
    word(pauli.nqubits as u64);
    mask(pauli.x);
    mask(pauli.z);
    word(u64::from(pauli.phase));
}

// `done` and the Pauli; beside a refusal stands the identity on no qubits.
pub(crate) fn made<R: fmt::Display + Drop>(answer: Result<PauliString, R>) {
    let mut beside = PauliString {
        nqubits: 0,
        x: [0; 4],
        z: [0; 4],
        phase: 0,
    };
    match answer {
        Ok(value) => {
            io::write_all(STDOUT_FILENO, b"done");
            beside = value;
        }
        Err(refusal) => refused(refusal),
    }
    pauli(beside);
}

pub fn bit<R: fmt::Display + Drop>(bit: Result<bool, R>) {
    answer(bit, |bit| number(u64::from(bit)));
}

pub(crate) fn size<R: fmt::Display + Drop>(size: Result<usize, R>) {
    answer(size, |n| number(n as u64));
}
