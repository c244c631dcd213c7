// Which row of the scope's table refuses a call on amplitudes or a kernel. Each function here answers for any
// arguments; a call asks for its rows by `?`, lowest number first.
#![tactic(auto)]

ghost use Rattle.std.specs.Prelude.{◌≡◌, ◌^◌, leb};
ghost use Rattle.std.specs.Float.Ieee.Scale.{finite};
ghost use Rattle.activepauli.specs.Active.{active_of};
ghost use Rattle.amplitudelaws.specs.Binary.{in_unit};
ghost use Rattle.amplitudelaws.specs.State.{room, state_of};
ghost use Rattle.amplitudelaws.specs.Rows.{width_row, promoted_width_row, hermitian_row, unit_row, rotation_kernel_row};
ghost use Rattle.amplitudelaws.specs.Rows.{pivot_mask, pivot_row, measurement_row, room_row};
ghost use Rattle.refusals.specs.Refusal.{row_of};

use activepauli::ActivePauli;
use refusals::{Row, refuse_if};

// The widest Pauli that becomes an action.
pub const WIDEST_ACTION: usize = 62;

// The widest Pauli that becomes a kernel or a correction.
pub const WIDEST_KERNEL: usize = 61;

// The widest state that a qubit is promoted from.
pub const WIDEST_PROMOTION: usize = 60;

// Neither NaN nor beyond -1..1.
pub fn in_unit(value: f64) -> bool
    ensures { result ≡ in_unit value }
{
    (-1.0 <= value) & (value <= 1.0)
}

// Neither NaN nor an infinity.
pub fn is_finite(value: f64) -> bool
    ensures { result ≡ finite value }
{
    value.is_finite()
}

// Whether both lists have room for the amplitudes of this many qubits: two lists, as the C interface lends them.
pub fn has_room(re: &[f64], im: &[f64], nqubits: usize) -> bool
    ensures { result ≡ room nqubits (state_of re.now im.now) }
{
    is_enough(re.len(), nqubits) & is_enough(im.len(), nqubits)
}

fn is_enough(length: usize, nqubits: usize) -> bool
    ensures { result ≡ leb (2 ^ nqubits) length }
{
    if 64 <= nqubits {
        return false;
    }
    1usize << nqubits <= length
}

// 13.
pub fn room_row(enough: bool) -> Result<(), Row>
    ensures { row_of result ≡ room_row enough }
{
    refuse_if(!enough, Row::TooFewAmplitudes)
}

// 3 and 6.
pub fn width_row(pauli: ActivePauli, widest: usize) -> Result<(), Row>
    ensures { row_of result ≡ width_row widest (active_of pauli) }
{
    pauli.pauli_row()?;
    refuse_if(widest < pauli.nqubits, Row::TooWide)
}

// 3 and 6 of a width that a qubit is promoted from.
pub fn promoted_width_row(width: usize) -> Result<(), Row>
    ensures { row_of result ≡ promoted_width_row width }
{
    refuse_if(paulis::MOST_QUBITS < width, Row::NoPauli)?;
    refuse_if(WIDEST_PROMOTION < width, Row::TooWide)
}

// 3, 6 and 7.
pub fn hermitian_row(pauli: ActivePauli, widest: usize) -> Result<(), Row>
    ensures { row_of result ≡ hermitian_row widest (active_of pauli) }
{
    width_row(pauli, widest)?;
    refuse_if(!pauli.is_hermitian()?, Row::NotHermitian)
}

// 8, of two coefficients.
pub fn unit_row(c: f64, s: f64) -> Result<(), Row>
    ensures { row_of result ≡ unit_row c s }
{
    refuse_if(!(in_unit(c) & in_unit(s)), Row::UnfitFloat)
}

// 3 and 6 to 8, of a rotation.
pub fn rotation_row(pauli: ActivePauli, c: f64, s: f64) -> Result<(), Row>
    ensures { row_of result ≡ rotation_kernel_row (active_of pauli) c s }
{
    hermitian_row(pauli, WIDEST_KERNEL)?;
    unit_row(c, s)
}

// The mask that the pivot must be in: x, or z where x is 0.
pub fn pivot_mask(pauli: ActivePauli) -> u64
    ensures { result ≡ pivot_mask (active_of pauli) }
{
    if pauli.x == 0 { pauli.z } else { pauli.x }
}

// 9 to 12. No call of its own: `measurement_row` asks for 3 first.
fn pivot_row(pauli: ActivePauli, pivot: usize) -> Result<(), Row>
    ensures { row_of result ≡ pivot_row (active_of pauli) pivot }
{
    let mask = pivot_mask(pauli);
    refuse_if(pauli.nqubits == 0, Row::NoQubits)?;
    refuse_if(pauli.nqubits <= pivot, Row::PivotPastWidth)?;
    refuse_if(mask == 0, Row::MeasuresIdentity)?;
    refuse_if(!bits::word_bit(mask, pivot), Row::IdlePivot)
}

// 3 and 6 to 12, of a measurement: 8 where `unfit` says so.
pub fn measurement_row(measured: ActivePauli, pivot: usize, unfit: bool) -> Result<(), Row>
    ensures { row_of result ≡ measurement_row (active_of measured) pivot unfit }
{
    hermitian_row(measured, WIDEST_KERNEL)?;
    refuse_if(unfit, Row::UnfitFloat)?;
    pivot_row(measured, pivot)
}
