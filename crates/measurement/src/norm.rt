// The squared length of what a branch leaves.
ghost use Rattle.std.specs.Prelude.{◌≡◌, ◌-◌, ◌<◌, ◌^◌};
ghost use Rattle.bitlaws.specs.Digit.{bit_of};
ghost use Rattle.amplitudelaws.specs.Lent.{Room};
ghost use Rattle.amplitudelaws.specs.State.{point, state_of};
ghost use Rattle.complex.specs.Complex.{complex_of};
ghost use Rattle.kernels.specs.Kernel.{measurement_kernel_of};
ghost use Rattle.measurement.specs.Measured.{kernel_remaining, kernel_mass};

use crate::{Measured, amplitude, diagonal};
use complex::Complex64;

impl Measured {
    // From 0, output index rising.
    pub(crate) fn mass(self, re: &[f64], im: &[f64]) -> f64
        requires { Room self.kernel.action.nqubits re.now im.now }
        ensures { let K = measurement_kernel_of self.kernel in
            result ≡ kernel_mass K (bit_of self.branch) (2 ^ (K.action.n - 1)) (state_of re.now im.now) }
    {
        let mut sum = 0.0;
        for j in 0..self.kernel.out_dim {
            sum += formulas::squared(self.remaining(re, im, j));
        }
        sum
    }

    // What the branch leaves at output j, before invnorm.
    fn remaining(self, re: &[f64], im: &[f64], j: usize) -> Complex64
        requires { (j < 2 ^ (self.kernel.action.nqubits - 1)) × Room self.kernel.action.nqubits re.now im.now }
        ensures { let K = measurement_kernel_of self.kernel in
            complex_of result ≡ kernel_remaining K (bit_of self.branch) (point (state_of re.now im.now)) j }
    {
        let kernel = self.kernel;
        if !kernel.is_diagonal {
            return self.mixture(re, im, j);
        }
        let odd = kernel.diagonal_phase_bit ^ self.branch;
        let from = diagonal::source(j, kernel.pivot, kernel.action.zmask, odd);
        amplitude::read(re, im, from)
    }
}
