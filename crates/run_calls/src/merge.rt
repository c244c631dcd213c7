// Two corrections, one carry, on one run, for either caller: a Pauli B carried through it and a Pauli A through what that
// leaves, against B A carried through it. What is written of each carried run is where it differs from the run itself.
// The first carry that is refused is the last that is written.
use crate::likeness::Likeness;
use crate::write;
use activepauli::ActivePauli;
use callers::Caller;
use refusals::Refusal;

pub(crate) fn merged(run: &[u8], b: ActivePauli, a: ActivePauli, caller: Caller) {
    let mut out = run_text::room(0xee);
    let Ok(end) = carried(run, run, b, &mut out, caller) else {
        return;
    };
    let Some(left) = out.get(..run.len()) else {
        return;
    };
    write::bar();
    second(run, left, b, a, end, caller);
}

// A through what B leaves; B's end Pauli is known. Then B A through the run, and whether it leaves what the two left, and
// ends in the product of their end Paulis.
fn second(
    run: &[u8],
    left: &[u8],
    b: ActivePauli,
    a: ActivePauli,
    end: ActivePauli,
    caller: Caller,
) {
    let mut in_turn = run_text::room(0xee);
    let Ok(last) = carried(run, left, a, &mut in_turn, caller) else {
        return;
    };
    write::bar();
    let (Ok(merged), Ok(product)) = (b.mul(a), end.mul(last)) else {
        return;
    };
    let mut at_once = run_text::room(0xee);
    let Ok(end) = carried(run, run, merged, &mut at_once, caller) else {
        return;
    };
    write::bar();
    let same = (product == end) & (in_turn[..] == at_once[..]);
    write::likeness(Likeness::of_equal(same));
}

// One carry, through the run or through what another has left of it.
fn carried(
    run: &[u8],
    through: &[u8],
    pauli: ActivePauli,
    out: &mut [u8],
    caller: Caller,
) -> Result<ActivePauli, Refusal> {
    let answer = carrier::carry_run(through, pauli, out, caller);
    write::carry(answer, run, out);
    answer
}
