// A qubit promoted out of the dormant set (contiguous.rs): alpha' = [c alpha, +i q alpha], the new qubit
// being the highest. The comment over the Rust has -i q; its code multiplies by +i q, as here.
#![tactic(auto)]

mod amplitude;
mod halves;

ghost use Rattle.std.specs.Prelude.{◌≡◌};
ghost use Rattle.amplitudelaws.specs.Calls.{promoting};
ghost use Rattle.amplitudelaws.specs.Rows.{promotion_row};
ghost use Rattle.amplitudelaws.specs.State.{state_of};
ghost use Rattle.refusals.specs.Refusal.{row_of};
ghost use Rattle.rows.specs.Step.{step_answer_of};

use refusals::Row;

// From `nqubits` qubits to one more. Refused by 3, by 6 past 60 qubits, by 8, and by 13 where a buffer is
// too short for the new state.
pub fn promote_contiguous_active(
    re: &mut [f64],
    im: &mut [f64],
    nqubits: usize,
    c: f64,
    q: f64,
) -> Result<(), Row>
    ensures { let S = state_of re.old im.old in
        let did = promoting nqubits c q S in
        (step_answer_of result ≡ did.answer) × (state_of re.new im.new ≡ did.lent) }
{
    promotion_row(re, im, nqubits, c, q)?;
    halves::promote(re, im, nqubits, c, q);
    Ok(())
}

fn promotion_row(re: &[f64], im: &[f64], nqubits: usize, c: f64, q: f64) -> Result<(), Row>
    ensures { row_of result ≡ promotion_row nqubits c q (state_of re.now im.now) }
{
    rows::promoted_width_row(nqubits)?;
    rows::unit_row(c, q)?;
    rows::room_row(rows::has_room(re, im, nqubits + 1))
}
