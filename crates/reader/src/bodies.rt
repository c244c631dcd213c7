// The body of each kind of step. The lowest number that refuses is answered: 3 and 6 to 8 of the
// kernels' rows, 9 to 12 of a projection's, then 14 for a sign or a branch over 1, the caller's row for a
// promotion at its greatest width. Who calls matters to a promotion alone.
ghost use Rattle.std.specs.Prelude.{◌≡◌, ◌+◌, ◌≤◌, ltb, length, MatchResult};
ghost use Rattle.std.specs.Float.{nan};
ghost use Rattle.std.proofs.Math.Option.{some};
ghost use Rattle.answers.specs.Row as table;
ghost use Rattle.answers.specs.Row.{answered};
ghost use Rattle.bitlaws.specs.Digit.{bit_of};
ghost use Rattle.activepauli.specs.Active.{active_of};
ghost use Rattle.callers.specs.Meaning.{limits_of};
ghost use Rattle.framelaws.specs.Caller.{Caller};
ghost use Rattle.refusals.specs.Refusal.{number_of, answer_of};
ghost use Rattle.runlaws.specs.Bytes.{float_at, pauli_at};
ghost use Rattle.runlaws.specs.Reading.{rotation_bytes, promotion_bytes, projection_bytes, correction_bytes, quarter_turn_bytes};
ghost use Rattle.runlaws.specs.Reading.{rotation_in, promotion_in, projection_in, correction_in, quarter_turn_in};
ghost use Rattle.steps.specs.Meaning.{step_of};
ghost use Rattle.reader.specs.Meaning.{step_call};

use activepauli::ActivePauli;
use callers::Limits;
use refusals::{Row, refuse_if};
use steps::Step;

// The bytes of a rotation's body: its Pauli's 17, the sign, c and s.
pub(crate) const ROTATION_BYTES: usize = 34;

// A promotion's: c and q.
pub(crate) const PROMOTION_BYTES: usize = 16;

// A projection's: its Pauli's 17, the pivot, the branch and invnorm.
pub(crate) const PROJECTION_BYTES: usize = 27;

// A correction's: its Pauli's.
pub(crate) const CORRECTION_BYTES: usize = 17;

// A quarter turn's: its Pauli's.
pub(crate) const QUARTER_TURN_BYTES: usize = 17;

// The 17 bytes k, x, z as a Pauli of this width.
fn pauli(body: &[u8], width: usize) -> ActivePauli
    requires { 17 ≤ length body.now }
    ensures { active_of result ≡ pauli_at width body.now }
{
    ActivePauli {
        nqubits: width,
        x: crate::number::eight(body, 1),
        z: crate::number::eight(body, 9),
        phase: body[0],
    }
}

// The float from byte i on; 8 where the bytes are a NaN's.
fn float(body: &[u8], i: usize) -> Result<f64, Row>
    requires { i + 8 ≤ length body.now }
    ensures { MatchResult result (λ x. x ≡ float_at body.now i) (λ row. (number_of row ≡ 8) × (nan ≡ float_at body.now i)) }
{
    let bits = crate::number::eight(body, i);
    let exponent = bits % 9223372036854775808 / 4503599627370496;
    let digits = bits % 4503599627370496;
    if (exponent == 2047) & (digits != 0) {
        return Err(Row::UnfitFloat);
    }
    Ok(f64::from_bits(bits))
}

// A sign or a branch; 14 over 1.
fn bit(byte: u8) -> Result<bool, Row>
    ensures { answer_of bit_of result ≡ answered (table.row (ltb 1 byte) 14 0) byte }
{
    match byte {
        0 => Ok(false),
        1 => Ok(true),
        _ => Err(Row::BadField),
    }
}

pub(crate) fn rotation(body: &[u8], width: usize) -> Result<Step, Row>
    requires { length body.now ≡ rotation_bytes }
    ensures { (caller : Caller) → answer_of step_of result ≡ step_call caller width (some (rotation_in width body.now)) }
{
    let pauli = pauli(body, width);
    rows::hermitian_row(pauli, rows::WIDEST_KERNEL)?;
    let c = float(body, 18)?;
    let s = float(body, 26)?;
    rows::unit_row(c, s)?;
    let sign = bit(body[17])?;
    Ok(Step::Rotation(pauli, sign, c, s))
}

pub(crate) fn promotion(body: &[u8], width: usize, limits: Limits) -> Result<Step, Row>
    requires { length body.now ≡ promotion_bytes }
    ensures { answer_of step_of result ≡ step_call (limits_of limits) width (some (promotion_in body.now)) }
{
    rows::promoted_width_row(width)?;
    let c = float(body, 0)?;
    let q = float(body, 8)?;
    rows::unit_row(c, q)?;
    refuse_if(limits.widest() <= width, limits.promotion_row())?;
    Ok(Step::Promotion(c, q))
}

pub(crate) fn projection(body: &[u8], width: usize) -> Result<Step, Row>
    requires { length body.now ≡ projection_bytes }
    ensures { (caller : Caller) → answer_of step_of result ≡ step_call caller width (some (projection_in width body.now)) }
{
    let pauli = pauli(body, width);
    rows::hermitian_row(pauli, rows::WIDEST_KERNEL)?;
    let invnorm = float(body, 19)?;
    let pivot = usize::from(body[17]);
    rows::measurement_row(pauli, pivot, !rows::is_finite(invnorm))?;
    let branch = bit(body[18])?;
    Ok(Step::Projection(pauli, pivot, branch, invnorm))
}

pub(crate) fn correction(body: &[u8], width: usize) -> Result<Step, Row>
    requires { length body.now ≡ correction_bytes }
    ensures { (caller : Caller) → answer_of step_of result ≡ step_call caller width (some (correction_in width body.now)) }
{
    let pauli = pauli(body, width);
    rows::width_row(pauli, rows::WIDEST_KERNEL)?;
    Ok(Step::Correction(pauli))
}

pub(crate) fn quarter_turn(body: &[u8], width: usize) -> Result<Step, Row>
    requires { length body.now ≡ quarter_turn_bytes }
    ensures { (caller : Caller) → answer_of step_of result ≡ step_call caller width (some (quarter_turn_in width body.now)) }
{
    let pauli = pauli(body, width);
    rows::hermitian_row(pauli, rows::WIDEST_KERNEL)?;
    Ok(Step::QuarterTurn(pauli))
}
