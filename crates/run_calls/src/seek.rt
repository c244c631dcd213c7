// Which start gives this end, on one run, for either caller. Any Pauli that serves is right, so the one that is found is
// not written: its width is, then what carrying it through the run ends in, and whether that is the Pauli that was named.
use crate::likeness::Likeness;
use crate::write;
use activepauli::ActivePauli;
use callers::Caller;
use pauli_calls::show;

pub(crate) fn sought(run: &[u8], end: ActivePauli, caller: Caller) {
    show::answer(
        seeker::seek_start(run, end, caller),
        |start| found(run, start, end, caller),
    );
}

// The end of what was found against the one that was named. A refusal to carry it ends the line.
fn found(run: &[u8], start: ActivePauli, end: ActivePauli, caller: Caller) {
    write::found(start.nqubits);
    write::bar();
    let mut out = run_text::room(0xee);
    let answer = carrier::carry_run(run, start, &mut out, caller);
    write::carried(answer);
    if let Ok(last) = answer {
        write::bar();
        write::likeness(Likeness::of_equal(last == end));
    }
}
