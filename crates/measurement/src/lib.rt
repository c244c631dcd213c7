// The probability of a branch of a measured Pauli, and the projection on it (contiguous.rs, the scalar
// loops): 2^n amplitudes become the low 2^(n-1), output index j being the basis without the pivot's bit.
// Upper halves and what lies past the state are kept.
#![tactic(auto)]

mod amplitude;
mod diagonal;
mod mixing;
mod norm;

ghost use Rattle.std.specs.Prelude.{◌≡◌, false, ◌-◌};
ghost use Rattle.bitlaws.specs.Digit.{bit_of};
ghost use Rattle.activepauli.specs.Active.{active_of};
ghost use Rattle.amplitudelaws.specs.Calls.{weighing, projecting};
ghost use Rattle.amplitudelaws.specs.Lent.{Room};
ghost use Rattle.amplitudelaws.specs.Memory.{memory_of};
ghost use Rattle.amplitudelaws.specs.State.{state_of};
ghost use Rattle.refusals.specs.Refusal.{answer_of, number_of, row_of};
ghost use Rattle.rows.specs.Step.{step_answer_of};
ghost use Rattle.kernels.specs.Kernel.{measurement_kernel_of};
ghost use Rattle.measurement.specs.Measured.{kernel_memory, Projectable};
ghost use Rattle.measurement.specs.Rows.{with_eight, kernel_row};

use activepauli::ActivePauli;
use kernels::PrecomputedActivePauliMeasurementKernel;
use refusals::{Row, refuse_if};

// A kernel that a Pauli made, and the branch that is asked for.
#[derive(Clone, Copy)]
struct Measured {
    kernel: PrecomputedActivePauliMeasurementKernel,
    branch: bool,
    ghost projectable: { Projectable (measurement_kernel_of kernel) },
}

// The probability of `branch`: the squares of what the branch leaves, added by rising output index,
// clamped to 0..1. Refused by 3, by 6 past 61 qubits, by 7, by 9 to 12 and by 13.
pub fn probability_contiguous(
    re: &[f64],
    im: &[f64],
    pauli: ActivePauli,
    pivot: usize,
    branch: bool,
) -> Result<f64, Row>
    ensures { answer_of (λ p. p) result ≡ weighing (active_of pauli) pivot (bit_of branch) (state_of re.now im.now) }
{
    let kernel = PrecomputedActivePauliMeasurementKernel::with_pivot(pauli, pivot)?;
    rows::room_row(rows::has_room(re, im, pauli.nqubits))?;
    let measured = Measured { kernel, branch };
    Ok(formulas::clamped(measured.mass(re, im)))
}

// Collapses onto `branch`, each part times `invnorm`. With an X part two amplitudes are mixed, so the
// result is made in the scratch and copied; without one it is made in place and the scratch is left
// alone. Refused by 3, by 6 past 61 qubits, by 7 to 12, and by 13 where a buffer is too short.
pub fn project_contiguous(
    re: &mut [f64],
    im: &mut [f64],
    scratch_re: &mut [f64],
    scratch_im: &mut [f64],
    pauli: ActivePauli,
    pivot: usize,
    branch: bool,
    invnorm: f64,
) -> Result<(), Row>
    ensures { let m = memory_of re.old im.old scratch_re.old scratch_im.old in
        let did = projecting (active_of pauli) pivot (bit_of branch) invnorm m in
        (step_answer_of result ≡ did.answer) × (memory_of re.new im.new scratch_re.new scratch_im.new ≡ did.lent) }
{
    let kernel = match PrecomputedActivePauliMeasurementKernel::with_pivot(pauli, pivot) {
        Ok(kernel) => kernel,
        Err(row) => return Err(with_eight(row, invnorm)),
    };
    let measured = Measured { kernel, branch };
    measured.kernel_row(re, im, scratch_re, scratch_im, invnorm)?;
    measured.project(re, im, scratch_re, scratch_im, invnorm);
    Ok(())
}

// Row 8, of invnorm, stands between the rows of a kernel, up to 7 and from 9.
fn with_eight(row: Row, invnorm: f64) -> Row
    ensures { number_of result ≡ with_eight (number_of row) invnorm }
{
    if (8 < u8::from(row)) & !rows::is_finite(invnorm) {
        Row::UnfitFloat
    } else {
        row
    }
}

impl Measured {
    // Rows 8 and 13, where there is a kernel.
    fn kernel_row(
        self,
        re: &[f64],
        im: &[f64],
        scratch_re: &[f64],
        scratch_im: &[f64],
        invnorm: f64,
    ) -> Result<(), Row>
        ensures { let m = memory_of re.now im.now scratch_re.now scratch_im.now in
            row_of result ≡ kernel_row (measurement_kernel_of self.kernel) invnorm m }
    {
        refuse_if(!rows::is_finite(invnorm), Row::UnfitFloat)?;
        let n = self.kernel.action.nqubits;
        let scratch = self.kernel.is_diagonal | rows::has_room(scratch_re, scratch_im, n - 1);
        rows::room_row(rows::has_room(re, im, n) & scratch)
    }

    fn project(
        self,
        re: &mut [f64],
        im: &mut [f64],
        scratch_re: &mut [f64],
        scratch_im: &mut [f64],
        invnorm: f64,
    )
        requires { Room self.kernel.action.nqubits re.old im.old
            × (self.kernel.is_diagonal ≡ false → Room (self.kernel.action.nqubits - 1) scratch_re.old scratch_im.old) }
        ensures { let m = memory_of re.old im.old scratch_re.old scratch_im.old in
            let K = measurement_kernel_of self.kernel in
            memory_of re.new im.new scratch_re.new scratch_im.new ≡ kernel_memory K (bit_of self.branch) invnorm m }
    {
        if self.kernel.is_diagonal {
            self.project_diagonal(re, im, invnorm);
        } else {
            self.project_to_scratch(re, im, scratch_re, scratch_im, invnorm);
            mixing::copy_back(
                re,
                im,
                scratch_re,
                scratch_im,
                self.kernel.action.nqubits - 1,
            );
        }
    }
}
