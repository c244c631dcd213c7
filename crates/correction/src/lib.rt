// A Pauli fired as a pulse: the amplitude at b moves to b xor x, times a power of i, in place over the
// first 2^n amplitudes. What lies past them is kept.
#![tactic(auto)]

mod amplitude;
mod moves;

ghost use Rattle.std.specs.Prelude.{◌≡◌, ◌≤◌, ◌<◌, ◌^◌};
ghost use Rattle.activepauli.specs.Active.{active_of};
ghost use Rattle.amplitudelaws.specs.Calls.{correcting};
ghost use Rattle.amplitudelaws.specs.Rows.{widest_kernel, correction_row};
ghost use Rattle.amplitudelaws.specs.State.{state_of};
ghost use Rattle.refusals.specs.Refusal.{row_of};
ghost use Rattle.rows.specs.Step.{step_answer_of};

use activepauli::ActivePauli;
use refusals::Row;

// A Pauli that a pulse fires.
#[derive(Clone, Copy)]
struct Pulse {
    pauli: ActivePauli,
    ghost narrow: { pauli.nqubits ≤ widest_kernel },
    ghost masked: { pauli.x < 2 ^ pauli.nqubits },
}

// Refused by 3, by 6 past 61 qubits and by 13 where a buffer is too short.
pub fn correct_contiguous_active(
    re: &mut [f64],
    im: &mut [f64],
    pauli: ActivePauli,
) -> Result<(), Row>
    ensures { let S = state_of re.old im.old in
        let did = correcting (active_of pauli) S in
        (step_answer_of result ≡ did.answer) × (state_of re.new im.new ≡ did.lent) }
{
    correction_row(re, im, pauli)?;
    let pulse = Pulse { pauli };
    pulse.correct(re, im);
    Ok(())
}

fn correction_row(re: &[f64], im: &[f64], pauli: ActivePauli) -> Result<(), Row>
    ensures { row_of result ≡ correction_row (active_of pauli) (state_of re.now im.now) }
{
    rows::width_row(pauli, rows::WIDEST_KERNEL)?;
    rows::room_row(rows::has_room(re, im, pauli.nqubits))
}
