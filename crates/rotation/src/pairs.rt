// An X part: the amplitudes at b and b xor x rotate together. The pairs are counted by the basis without
// `pair_bit`, which x has.
ghost use Rattle.std.specs.Prelude.{◌≡◌, false, ◌+◌};
ghost use Rattle.bitlaws.specs.Digit.{bit_of};
ghost use Rattle.bitlaws.specs.Parity.{overlap};
ghost use Rattle.amplitudelaws.specs.Arithmetic.{direction, scale};
ghost use Rattle.amplitudelaws.specs.Binary.{binary};
ghost use Rattle.amplitudelaws.specs.Lent.{Room};
ghost use Rattle.amplitudelaws.specs.Rotation.{rotated_uniform, rotated_pairs};
ghost use Rattle.amplitudelaws.specs.State.{point, written, state_of};
ghost use Rattle.complex.specs.Complex.{complex_of};
ghost use Rattle.kernels.specs.Kernel.{rotation_kernel_of};

use crate::{Rotation, amplitude};
use complex::Complex64;

impl Rotation {
    // z = 0: the same coefficient t for every pair, of which only the imaginary part is not zero.
    #[tactic(auto, using(bitlaws::specs::Digit::one_shifted, amplitudelaws::specs::Sweeping::sweeping_none))]
    pub(crate) fn rotate_uniform_imag_pairs(self, re: &mut [f64], im: &mut [f64])
        requires { (self.kernel.is_diagonal ≡ false) × Room self.kernel.action.nqubits re.old im.old }
        ensures { let S = state_of re.old im.old in
            let K = rotation_kernel_of self.kernel in
            let rotated = rotated_uniform binary K.action.x (bit_of self.sign) K.cosine K.m (point S) in
            state_of re.new im.new ≡ written K.action.n rotated S }
    {
        let kernel = self.kernel;
        let c = kernel.cos_kernel_angle;
        let t = complex::negated(self.sign, kernel.minus_even_coefficient);
        let half = 1usize << (kernel.action.nqubits - 1);
        for k in 0..half {
            let left = bits::open_bit(k, kernel.pair_bit);
            let right = left ^ kernel.action.xmask as usize;
            let p = amplitude::read(re, im, left);
            let q = amplitude::read(re, im, right);
            amplitude::write(re, im, left, formulas::rotated_with(c, t, p, q));
            amplitude::write(re, im, right, formulas::rotated_with(c, t, q, p));
        }
    }

    // The general case: each member's coefficient takes its sign from the parity at its partner.
    #[tactic(auto, using(bitlaws::specs::Digit::one_shifted, amplitudelaws::specs::Sweeping::sweeping_none))]
    pub(crate) fn rotate_pairs(self, re: &mut [f64], im: &mut [f64])
        requires { (self.kernel.is_diagonal ≡ false) × Room self.kernel.action.nqubits re.old im.old }
        ensures { let S = state_of re.old im.old in
            let K = rotation_kernel_of self.kernel in
            let rotated = rotated_pairs binary K.action.x K.action.z (bit_of self.sign) K.cosine K.m (point S) in
            state_of re.new im.new ≡ written K.action.n rotated S }
    {
        let kernel = self.kernel;
        let c = kernel.cos_kernel_angle;
        let half = 1usize << (kernel.action.nqubits - 1);
        for k in 0..half {
            let left = bits::open_bit(k, kernel.pair_bit);
            let right = left ^ kernel.action.xmask as usize;
            let to_left = self.coefficient(right as u64);
            let to_right = self.coefficient(left as u64);
            let p = amplitude::read(re, im, left);
            let q = amplitude::read(re, im, right);
            amplitude::write(re, im, left, complex::mixed(c, to_left, p, q));
            amplitude::write(re, im, right, complex::mixed(c, to_right, q, p));
        }
    }

    // m, times -1 where the sign differs from the parity at the partner, else times 1.
    #[tactic(auto, using(amplitudelaws::specs::Arithmetic::direction_bit))]
    fn coefficient(self, partner: u64) -> Complex64
        ensures { let K = rotation_kernel_of self.kernel in
            complex_of result ≡ scale binary (direction binary (bit_of self.sign + overlap partner K.action.z)) K.m }
    {
        let odd = bits::differs_from_parity(self.sign, partner, self.kernel.action.zmask);
        complex::scale(complex::direction(odd), self.kernel.minus_even_coefficient)
    }
}
