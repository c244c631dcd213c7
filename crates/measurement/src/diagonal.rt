// No X part: each output reads the one basis that has the branch's parity. Safe in place: every basis
// read is at least its output index.
ghost use Rattle.std.specs.Prelude.{◌≡◌, true, ◌-◌, ◌≤◌, ◌<◌, ◌^◌};
ghost use Rattle.bitlaws.specs.Digit.{bit_of};
ghost use Rattle.bitlaws.specs.Source as basis;
ghost use Rattle.amplitudelaws.specs.Lent.{Room};
ghost use Rattle.amplitudelaws.specs.Rows.{widest_kernel};
ghost use Rattle.amplitudelaws.specs.State.{written, state_of};
ghost use Rattle.kernels.specs.Kernel.{measurement_kernel_of};
ghost use Rattle.measurement.specs.Measured.{kernel_projected};

use crate::{Measured, amplitude};

impl Measured {
    pub(crate) fn project_diagonal(self, re: &mut [f64], im: &mut [f64], invnorm: f64)
        requires { (self.kernel.is_diagonal ≡ true) × Room self.kernel.action.nqubits re.old im.old }
        ensures { let S = state_of re.old im.old in
            let K = measurement_kernel_of self.kernel in
            state_of re.new im.new ≡ written (K.action.n - 1) (kernel_projected K (bit_of self.branch) invnorm S) S }
    {
        let odd = self.kernel.diagonal_phase_bit ^ self.branch;
        for j in 0..self.kernel.out_dim {
            let from = source(j, self.kernel.pivot, self.kernel.action.zmask, odd);
            let a = amplitude::read(re, im, from);
            amplitude::write(re, im, j, complex::scaled(a, invnorm));
        }
    }
}

// The basis whose bits without the pivot are `packed` and whose parity with z is `odd`.
pub(crate) fn source(packed: usize, pivot: usize, zmask: u64, odd: bool) -> usize
    requires { (pivot ≤ widest_kernel - 1) × (packed < 2 ^ (widest_kernel - 1)) }
    ensures { result ≡ basis.source pivot zmask (bit_of odd) packed }
{
    let without_pivot = bits::open_bit(packed, pivot);
    if bits::differs_from_parity(odd, without_pivot as u64, zmask) {
        return without_pivot + (1usize << pivot);
    }
    without_pivot
}
