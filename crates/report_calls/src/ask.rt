// The calls, by what they are lent.
use crate::name::Call;
use crate::write;
use activepauli::ActivePauli;
use callers::Caller;
use kernel_calls::read;
use pauli_calls::{form, show};
use run_text::line;

pub(crate) fn call(call: Call, run: &[u8], words: [u64; 12]) -> Option<()> {
    let pauli = read::first_pauli(words);
    let number = form::index(words[4]);
    match call {
        Call::Report(caller) => {
            write::report(reporter::report_step(run, pauli, number, caller));
        }
        Call::Reports(caller) => each(run, pauli, caller),
        Call::Find => {
            write::found(reporter::find_step(run, pauli, number, Caller::Service));
        }
        Call::Line => return listed(call, run, words, words[5]),
        Call::Lines => return listed(call, run, words, words[4]),
        Call::Input => return listed(call, run, words, words[0]),
    }
    Some(())
}

// Steps from 0 on, a comma between, up to the first that is refused. A run has fewer steps than bytes.
fn each(run: &[u8], pauli: ActivePauli, caller: Caller) {
    for number in 0..=run.len() {
        if number != 0 {
            show::byte(b',');
        }
        let answer = reporter::report_step(run, pauli, number, caller);
        write::report(answer);
        if answer.is_err() {
            return;
        }
    }
}

// Texts are lent an output of the length that a word says.
fn listed(call: Call, run: &[u8], words: [u64; 12], word: u64) -> Option<()> {
    let mut space = crate::dots();
    let out = space.get_mut(..form::index(word))?;
    let pauli = read::first_pauli(words);
    write::length(match call {
        Call::Line => reports::list_step(run, pauli, form::index(words[4]), out),
        Call::Lines => reports::list_steps(run, pauli, out),
        _ => reports::list_report(run, out),
    });
    write::bar();
    line::shown(out);
    Some(())
}
