// Every call of lines that makes a whole line, and listing's, at their limits. Each is lent a buffer of dots; the answer is written
// on a line, and then the whole buffer. The file stdout beside this folder was derived by hand from the scope.
#![tactic(auto)]

ghost use Rattle.std.specs.Prelude.{◌≤◌};

use refusals::Row;

// The C library's number of standard output.
const STDOUT_FILENO: i32 = 1;

fn main() {
    widths();
    refusals();
    amplitudes();
    short();
    digits();
    runs();
    short_runs();
}

// Lends the call a buffer of so many dots; what it answers is printed, and the whole buffer.
fn lend<F: FnOnce(&mut [u8]) -> Result<usize, Row>>(size: usize, call: F)
    requires callable { F.IsAlwaysCallable call }
    requires within { size ≤ 90 }
{
    let mut dots = [b'.'; 90];
    let buffer = &mut dots[..size];
    let answer = call(buffer);
    show(answer, buffer);
}

fn widths() {
    for width in [0, 12, usize::MAX] {
        lend(56, |buffer| lines::qubits(width, buffer));
    }
}

fn refusals() {
    for number in [13, 14, 255] {
        lend(56, |buffer| lines::refused(number, buffer));
    }
}

fn amplitudes() {
    let nan = 0.0 / 0.0;
    for (basis, re, im) in [
        (0, nan, -nan),
        (9, -0.0, 0.0),
        (10, 1.0 / 0.0, -1.0 / 0.0),
        // The least denormal.
        (4095, 5e-324, 1.0),
        (usize::MAX, 0.1, -1.5),
    ] {
        lend(56, |buffer| lines::amplitude(basis, re, im, buffer));
    }
}

// Each line in a buffer one byte too short, and in one just long enough.
fn short() {
    lend(9, |buffer| lines::qubits(12, buffer));
    let mut ten = [b'.'; 10];
    let answer = lines::qubits(12, &mut ten);
    show(answer, &ten);
    let answer = lines::refused(13, &mut ten);
    show(answer, &ten);
    lend(11, |buffer| lines::refused(13, buffer));
    lend(35, |buffer| lines::amplitude(9, 1.0, 0.0, buffer));
    lend(36, |buffer| lines::amplitude(9, 1.0, 0.0, buffer));
}

fn digits() {
    told(b"digits ", lines::decimal_length(0) as u64);
    told(b"digits ", lines::decimal_length(9) as u64);
    told(b"digits ", lines::decimal_length(10) as u64);
    told(b"digits ", lines::decimal_length(u64::MAX) as u64);
}

// Whole listings: a state of no qubits, and runs that are refused.
fn runs() {
    listed(b"\x01\x01\x00\x00\x06\x00\x00");
    // No bytes, a start field over 12 qubits, a tag that no field has, no end field, and one byte too many: 14.
    listed(b"");
    listed(b"\x01\x01\x00\x0d\x06\x00\x00");
    listed(b"\x01\x01\x00\x00\x07\x00\x00");
    listed(b"\x01\x01\x00\x00");
    let long = [1u8; 65537];
    listed(&long);
    // A promotion with c = 2 at width 0: 8; one with c = 1 at width 12: 15.
    listed(
        b"\x01\x01\x00\x00\x03\x10\x00\x00\x00\x00\x00\x00\x00\x00\x40\x00\x00\x00\x00\x00\x00\x00\x00\x06\x00\x00",
    );
    listed(
        b"\x01\x01\x00\x0c\x03\x10\x00\x00\x00\x00\x00\x00\x00\xf0\x3f\x00\x00\x00\x00\x00\x00\x00\x00\x06\x00\x00",
    );
    // A correction with k = 4 at width 0: 3.
    listed(
        b"\x01\x01\x00\x00\x05\x11\x00\x04\x00\x00\x00\x00\x00\x00\x00\x00\x00\x00\x00\x00\x00\x00\x00\x00\x06\x00\x00",
    );
}

fn listed(run: &[u8]) {
    lend(56, |buffer| listing::list_run(run, buffer));
}

// The scope's example, and a refusal, in a buffer one byte too short, in one just long enough, and in a longer one.
fn short_runs() {
    let run =
        b"\x01\x01\x00\x01\x05\x11\x00\x00\x01\x00\x00\x00\x00\x00\x00\x00\x00\x00\x00\x00\x00\x00\x00\x00\x06\x00\x00";
    lend(80, |buffer| listing::list_run(run, buffer));
    lend(81, |buffer| listing::list_run(run, buffer));
    lend(90, |buffer| listing::list_run(run, buffer));
    lend(10, |buffer| listing::list_run(b"", buffer));
    lend(11, |buffer| listing::list_run(b"", buffer));
}

fn show(answer: Result<usize, Row>, buffer: &[u8]) {
    match answer {
        Ok(n) => told(b"length ", n as u64),
        Err(row) => told(b"refused by ", u64::from(u8::from(row))),
    }
    io::write_all(STDOUT_FILENO, buffer);
    io::write_all(STDOUT_FILENO, b"\n");
}

fn told(word: &[u8], n: u64) {
    io::write_all(STDOUT_FILENO, word);
    io::print_decimal(STDOUT_FILENO, n);
    io::write_all(STDOUT_FILENO, b"\n");
}
