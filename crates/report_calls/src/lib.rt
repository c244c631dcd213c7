// Calls of reporter and reports in text: each line asks one, and its whole answer is written as a line. A line is the
// call's name, a run or an input of the program `report` (run_text::first), and numbers (kernel_calls::read); it is for
// vectors/reports.py to say which. The calls are listed in name::named.
#![tactic(auto)]

mod ask;
mod name;
pub mod write;

ghost use Rattle.std.specs.Prelude.{◌≡◌, length};

use kernel_calls::read;

// Dots, more than the lines of any run's steps have, for an output that is lent.
pub fn dots() -> [u8; 262144]
    ensures { 262144 ≡ length result }
{
    [b'.'; 262144]
}

// The numbers of a call that takes so many.
pub fn numbers(text: &[u8], count: usize) -> Option<[u64; 12]> {
    let (words, found) = read::words(text)?;
    (found == count).then_some(words)
}

// Answers a line; none where it cannot be read, before anything is written.
pub fn answer(line: &[u8]) -> Option<()> {
    let end = octets::scan::find(line, 0, line.len(), b' ');
    let call = name::named(&line[..end])?;
    let mut space = run_text::room(0);
    let (run, rest) = run_text::first(&line[end..], &mut space)?;
    ask::call(call, run, numbers(rest, call.arity())?)
}
