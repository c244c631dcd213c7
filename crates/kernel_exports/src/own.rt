// The rows of calls on amplitudes, looked at before anything is written: row 14, of a sign or a branch that is
// no bit, stands behind them.
ghost use Rattle.amplitudelaws.specs.Memory.{memory_of};
ghost use Rattle.amplitudelaws.specs.State.{state_of};
ghost use Rattle.std.specs.Prelude.{◌≡◌};
ghost use Rattle.activepauli.specs.Active.{active_of};
ghost use Rattle.amplitudelaws.specs.Rows.{rotation_row, probability_row, projection_row};
ghost use Rattle.refusals.specs.Refusal.{row_of};

use activepauli::ActivePauli;
use refusals::Row;

pub(crate) fn rotation_row(
    re: &[f64],
    im: &[f64],
    pauli: ActivePauli,
    c: f64,
    s: f64,
) -> Result<(), Row>
    ensures { row_of result ≡ rotation_row (active_of pauli) c s (state_of re.now im.now) }
{
    rows::rotation_row(pauli, c, s)?;
    rows::room_row(rows::has_room(re, im, pauli.nqubits))
}

pub(crate) fn probability_row(
    re: &[f64],
    im: &[f64],
    pauli: ActivePauli,
    pivot: usize,
) -> Result<(), Row>
    ensures { row_of result ≡ probability_row (active_of pauli) pivot (state_of re.now im.now) }
{
    rows::measurement_row(pauli, pivot, false)?;
    rows::room_row(rows::has_room(re, im, pauli.nqubits))
}

pub(crate) fn projection_row(
    re: &[f64],
    im: &[f64],
    scratch_re: &[f64],
    scratch_im: &[f64],
    pauli: ActivePauli,
    pivot: usize,
    invnorm: f64,
) -> Result<(), Row>
    ensures { let m = memory_of re.now im.now scratch_re.now scratch_im.now in
        row_of result ≡ projection_row (active_of pauli) pivot invnorm m.state m.scratch }
{
    rows::measurement_row(pauli, pivot, !rows::is_finite(invnorm))?;
    let left = pauli.nqubits.saturating_sub(1);
    rows::room_row(
        rows::has_room(re, im, pauli.nqubits)
            & ((pauli.x == 0) | rows::has_room(scratch_re, scratch_im, left)),
    )
}
