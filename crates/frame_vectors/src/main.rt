// Reports of the steps of runs and logs of frames, asked in lines of standard input, as reporter, reports and framelog answer
// them; the file stdout beside this folder has the answers that vectors/frames.py gives, and vectors/reports.py and
// vectors/logs.py say what a line asks.
#![tactic(auto)]

mod logs;
mod name;

fn main() {
    kernel_calls::answer_input(answer);
}

fn answer(line: &[u8]) -> Option<()> {
    let end = octets::scan::find(line, 0, line.len(), b' ');
    match name::named(&line[..end]) {
        Some((call, caller)) => logs::call(call, &line[end..], caller),
        None => report_calls::answer(line),
    }
}
