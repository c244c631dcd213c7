// No X part, so every amplitude is scaled by its own eigenvalue.
ghost use Rattle.std.specs.Prelude.{◌≡◌};
ghost use Rattle.bitlaws.specs.Digit.{bit_of};
ghost use Rattle.amplitudelaws.specs.Binary.{binary};
ghost use Rattle.amplitudelaws.specs.Lent.{Room};
ghost use Rattle.amplitudelaws.specs.Rotation.{rotated_diagonal};
ghost use Rattle.amplitudelaws.specs.State.{point, written, state_of};
ghost use Rattle.kernels.specs.Kernel.{rotation_kernel_of};

use crate::{Rotation, amplitude};

impl Rotation {
    #[tactic(auto, using(bitlaws::specs::Digit::one_shifted, amplitudelaws::specs::Sweeping::sweeping_none))]
    pub(crate) fn rotate_diagonal(self, re: &mut [f64], im: &mut [f64])
        requires { Room self.kernel.action.nqubits re.old im.old }
        ensures { let S = state_of re.old im.old in
            let K = rotation_kernel_of self.kernel in
            let rotated = rotated_diagonal binary K.action.z (bit_of self.sign) K.cosine K.m (point S) in
            state_of re.new im.new ≡ written K.action.n rotated S }
    {
        let kernel = self.kernel;
        let dim = 1usize << kernel.action.nqubits;
        for b in 0..dim {
            let odd = bits::differs_from_parity(self.sign, b as u64, kernel.action.zmask);
            let t = complex::negated(odd, kernel.minus_even_coefficient);
            let p = amplitude::read(re, im, b);
            amplitude::write(
                re,
                im,
                b,
                formulas::rotated_alone(kernel.cos_kernel_angle, t, p),
            );
        }
    }
}
