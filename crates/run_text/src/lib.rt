// Runs in text, and what is written on one line of an answer: for the programs that ask calls on runs. A run is
// hexadecimal digits in pieces, commas between; `3*` before a piece stands for three of it.
#![tactic(auto)]

pub mod line;

ghost use Rattle.std.specs.Prelude.{◌≡◌, length};

use kernel_calls::read;
use pauli_calls::form;

// Room for a run, filled with a byte: more than the 65,536 bytes that a run may have.
pub fn room(byte: u8) -> [u8; 66000]
    ensures { 66000 ≡ length result }
{
    [byte; 66000]
}

// The run that a text begins with, behind a space, written to the start of `space`; and the text that follows it. None
// where there is no run, or no room.
pub fn first<'a, 'b>(text: &'a [u8], space: &'b mut [u8]) -> Option<(&'b [u8], &'a [u8])> {
    let [_, text @ ..] = text else {
        return None;
    };
    let end = octets::scan::find(text, 0, text.len(), b' ');
    let size = write_run(&text[..end], space)?;
    Some((space.get(..size)?, &text[end..]))
}

// Writes the run to the start of `out`, and answers its length: none where its last piece is empty.
fn write_run(text: &[u8], out: &mut [u8]) -> Option<usize> {
    if let [] | [.., b','] = text {
        return None;
    }
    let mut size = 0;
    for piece in text.split(|byte| *byte == b',') {
        size = write_piece(piece, out, size)?;
    }
    Some(size)
}

// One piece, written from `at` on; the place behind it.
fn write_piece(text: &[u8], out: &mut [u8], at: usize) -> Option<usize> {
    match text.iter().position(|byte| *byte == b'*') {
        Some(star) => {
            let count = read::number(&text[..star]).unwrap_or(0);
            write_times(count, &text[star + 1..], out, at)
        }
        None => write_hex(text, out, at),
    }
}

// The same digits, so many times, until there is no room for more; fewer than two digits are no byte.
fn write_times(count: u64, digits: &[u8], out: &mut [u8], at: usize) -> Option<usize> {
    if digits.len() < 2 {
        return Some(at);
    }
    let mut end = at;
    for _ in 0..count {
        end = write_hex(digits, out, end)?;
    }
    Some(end)
}

// Two digits a byte, written from `at` on; the place behind them.
fn write_hex(digits: &[u8], out: &mut [u8], at: usize) -> Option<usize> {
    let mut end = at;
    for pair in digits.chunks_exact(2) {
        *out.get_mut(end)? = value(pair[0]) << 4 | value(pair[1]);
        end += 1;
    }
    Some(end)
}

// What is no digit stands for 0.
fn value(digit: u8) -> u8 {
    form::digit(digit).unwrap_or(0)
}
