// Calls of fields, reader, checker, runner, passing, carrier, seeker, folder, correction and listing in text: each line
// asks one, and its whole answer is written as a line, with every lent buffer as it is after the call. A line is the
// call's name, a run (run_text::first), numbers and buffers (kernel_calls::read). The calls are listed in text::arity.
#![tactic(auto)]

mod ask;
mod both;
mod fold;
mod likeness;
mod listed;
mod merge;
mod seek;
mod text;
mod write;

use kernel_calls::read;

// Answers a line; none where it cannot be read, before anything is written.
pub fn answer(line: &[u8]) -> Option<()> {
    let end = octets::scan::find(line, 0, line.len(), b' ');
    let call = text::call(&line[..end])?;
    let mut space = run_text::room(0);
    let (run, rest) = run_text::first(&line[end..], &mut space)?;
    let bar = octets::scan::find(rest, 0, rest.len(), b'|');
    let numbers = &rest[..bar];
    let (words, count) = read::words(numbers.strip_suffix(b" ").unwrap_or(numbers))?;
    if count != text::arity(call)? {
        return None;
    }
    ask::call(call, run, words, &rest[bar..])
}
