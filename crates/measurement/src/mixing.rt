// An X part: each output mixes two inputs, so this cannot run in place; it writes the compacted state into
// the caller's scratch and copies it back.
ghost use Rattle.std.specs.Prelude.{◌≡◌, false, ◌-◌, ◌≤◌, ◌<◌, ◌^◌};
ghost use Rattle.bitlaws.specs.Digit.{bit_of};
ghost use Rattle.amplitudelaws.specs.Lent.{Room};
ghost use Rattle.amplitudelaws.specs.Rows.{widest_kernel};
ghost use Rattle.amplitudelaws.specs.State.{point, written, state_of};
ghost use Rattle.complex.specs.Complex.{complex_of};
ghost use Rattle.kernels.specs.Kernel.{measurement_kernel_of};
ghost use Rattle.measurement.specs.Measured.{kernel_remaining, kernel_projected};

use crate::{Measured, amplitude};
use complex::Complex64;

impl Measured {
    // What the branch leaves at output j, before invnorm.
    pub(crate) fn mixture(self, re: &[f64], im: &[f64], j: usize) -> Complex64
        requires { (self.kernel.is_diagonal ≡ false)
            × (j < 2 ^ (self.kernel.action.nqubits - 1)) × Room self.kernel.action.nqubits re.now im.now }
        ensures { let K = measurement_kernel_of self.kernel in
            complex_of result ≡ kernel_remaining K (bit_of self.branch) (point (state_of re.now im.now)) j }
    {
        let kernel = self.kernel;
        let source0 = bits::open_bit(j, kernel.pivot);
        let source1 = source0 ^ kernel.action.xmask as usize;
        let odd = bits::differs_from_parity(self.branch, source0 as u64, kernel.action.zmask);
        let w = complex::scale(
            complex::direction(odd),
            kernel.nondiagonal_coefficient1_even,
        );
        complex::mixed(
            f64::from_bits(complex::H_BITS),
            w,
            amplitude::read(re, im, source0),
            amplitude::read(re, im, source1),
        )
    }

    pub(crate) fn project_to_scratch(
        self,
        re: &[f64],
        im: &[f64],
        scratch_re: &mut [f64],
        scratch_im: &mut [f64],
        invnorm: f64,
    )
        requires { (self.kernel.is_diagonal ≡ false) × Room self.kernel.action.nqubits re.now im.now
            × Room (self.kernel.action.nqubits - 1) scratch_re.old scratch_im.old }
        ensures { let T = state_of scratch_re.old scratch_im.old in
            let K = measurement_kernel_of self.kernel in
            state_of scratch_re.new scratch_im.new
            ≡ written (K.action.n - 1) (kernel_projected K (bit_of self.branch) invnorm (state_of re.now im.now)) T }
    {
        for j in 0..self.kernel.out_dim {
            let a = complex::scaled(self.mixture(re, im, j), invnorm);
            amplitude::write(scratch_re, scratch_im, j, a);
        }
    }
}

// The first 2^nqubits amplitudes copied from the scratch, one by one: a copy of slices would need the C library's.
pub(crate) fn copy_back(
    re: &mut [f64],
    im: &mut [f64],
    scratch_re: &[f64],
    scratch_im: &[f64],
    nqubits: usize,
)
    requires { (nqubits ≤ widest_kernel - 1) × Room nqubits re.old im.old × Room nqubits scratch_re.now scratch_im.now }
    ensures { let scratch = state_of scratch_re.now scratch_im.now in
        state_of re.new im.new ≡ written nqubits (point scratch) (state_of re.old im.old) }
{
    let dim = 1usize << nqubits;
    for j in 0..dim {
        amplitude::write(re, im, j, amplitude::read(scratch_re, scratch_im, j));
    }
}
