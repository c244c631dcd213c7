// Reports of the steps of runs, asked in lines of standard input, as reporter and reports answer them; the file stdout
// beside this folder has the answers that vectors/reports.py gives, and vectors/reports.py says what a line asks.
#![tactic(auto)]

fn main() {
    kernel_calls::answer_input(report_calls::answer);
}
