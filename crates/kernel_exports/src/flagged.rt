// The calls with a sign or a branch: over 1 it is refused by 14, behind the call's own rows.
ghost use Rattle.amplitudelaws.specs.Memory.{memory_of};
ghost use Rattle.amplitudelaws.specs.State.{state_of};
ghost use Rattle.std.specs.Prelude.{◌≡◌};
ghost use Rattle.answers.specs.Outcome.{by_row, finished};
ghost use Rattle.answers.specs.Row.{first, answered};
ghost use Rattle.activepauli.specs.Active.{active_of};
ghost use Rattle.amplitudelaws.specs.Calls.{projected_memory};
ghost use Rattle.amplitudelaws.specs.Rows.{rotation_row, probability_row, projection_row};
ghost use Rattle.amplitudelaws.specs.Steps as steps;
ghost use Rattle.refusals.specs.Refusal.{answer_of};
ghost use Rattle.rows.specs.Step.{step_answer_of};
ghost use Rattle.verdicts.specs.Flag.{flag_row};

use crate::own;
use activepauli::ActivePauli;
use refusals::Row;

pub(crate) fn rotate(
    re: &mut [f64],
    im: &mut [f64],
    pauli: ActivePauli,
    sign: u8,
    c: f64,
    s: f64,
) -> Result<(), Row>
    ensures { let S = state_of re.old im.old in
        let row = first (rotation_row (active_of pauli) c s S) (flag_row sign) in
        let did = by_row row finished (steps.rotation (active_of pauli) sign c s S) S in
        (step_answer_of result ≡ did.answer) × (state_of re.new im.new ≡ did.lent) }
{
    own::rotation_row(re, im, pauli, c, s)?;
    verdicts::flag_row(sign)?;
    rotation::rotate_contiguous_active(re, im, pauli, sign == 1, c, s)
}

pub(crate) fn probability(
    re: &[f64],
    im: &[f64],
    pauli: ActivePauli,
    pivot: usize,
    branch: u8,
) -> Result<f64, Row>
    ensures { let S = state_of re.now im.now in
        let row = first (probability_row (active_of pauli) pivot S) (flag_row branch) in
        answer_of (λ p. p) result ≡ answered row (steps.probability (active_of pauli) pivot branch S) }
{
    own::probability_row(re, im, pauli, pivot)?;
    verdicts::flag_row(branch)?;
    measurement::probability_contiguous(re, im, pauli, pivot, branch == 1)
}

pub(crate) fn project(
    re: &mut [f64],
    im: &mut [f64],
    scratch_re: &mut [f64],
    scratch_im: &mut [f64],
    pauli: ActivePauli,
    pivot: usize,
    branch: u8,
    invnorm: f64,
) -> Result<(), Row>
    ensures { let m = memory_of re.old im.old scratch_re.old scratch_im.old in
        let M = active_of pauli in
        let row = first (projection_row M pivot invnorm m.state m.scratch) (flag_row branch) in
        let did = by_row row finished (projected_memory M pivot branch invnorm m) m in
        (step_answer_of result ≡ did.answer) × (memory_of re.new im.new scratch_re.new scratch_im.new ≡ did.lent) }
{
    own::projection_row(re, im, scratch_re, scratch_im, pauli, pivot, invnorm)?;
    verdicts::flag_row(branch)?;
    measurement::project_contiguous(
        re,
        im,
        scratch_re,
        scratch_im,
        pauli,
        pivot,
        branch == 1,
        invnorm,
    )
}
