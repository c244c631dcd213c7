// The amplitudes moved: each by itself where there is no X part, else in pairs that change places.
ghost use Rattle.std.specs.Prelude.{◌≡◌, ◌+◌, ◌*◌, ◌%◌};
ghost use Rattle.bitlaws.specs.Parity.{overlap};
ghost use Rattle.statelaws.specs.Pairs.{Pivoted};
ghost use Rattle.amplitudelaws.specs.Binary.{binary};
ghost use Rattle.amplitudelaws.specs.Correction.{corrected};
ghost use Rattle.amplitudelaws.specs.Lent.{Room};
ghost use Rattle.amplitudelaws.specs.State.{point, written, state_of};
ghost use Rattle.activepauli.specs.Active.{active_of};

use crate::{Pulse, amplitude};

impl Pulse {
    pub(crate) fn correct(self, re: &mut [f64], im: &mut [f64])
        requires { Room self.pauli.nqubits re.old im.old }
        ensures { let S = state_of re.old im.old in
            state_of re.new im.new ≡ written self.pauli.nqubits (corrected binary (active_of self.pauli) (point S)) S }
    {
        match bits::highest_bit(self.pauli.x) {
            Some(pair_bit) => self.correct_pairs(re, im, pair_bit),
            None => self.correct_alone(re, im),
        }
    }

    #[tactic(auto, using(bitlaws::specs::Digit::one_shifted, amplitudelaws::specs::Sweeping::sweeping_none))]
    fn correct_alone(self, re: &mut [f64], im: &mut [f64])
        requires { (self.pauli.x ≡ 0) × Room self.pauli.nqubits re.old im.old }
        ensures { let S = state_of re.old im.old in
            state_of re.new im.new ≡ written self.pauli.nqubits (corrected binary (active_of self.pauli) (point S)) S }
    {
        let dim = 1usize << self.pauli.nqubits;
        for b in 0..dim {
            let turns = self.exponent(b as u64);
            let p = amplitude::read(re, im, b);
            amplitude::write(re, im, b, complex::times_power(turns, p));
        }
    }

    #[tactic(auto, using(bitlaws::specs::Digit::one_shifted, amplitudelaws::specs::Sweeping::sweeping_none))]
    fn correct_pairs(self, re: &mut [f64], im: &mut [f64], pair_bit: usize)
        requires { Pivoted self.pauli.nqubits pair_bit self.pauli.x × Room self.pauli.nqubits re.old im.old }
        ensures { let S = state_of re.old im.old in
            state_of re.new im.new ≡ written self.pauli.nqubits (corrected binary (active_of self.pauli) (point S)) S }
    {
        let half = 1usize << (self.pauli.nqubits - 1);
        for k in 0..half {
            let left = bits::open_bit(k, pair_bit);
            let right = left ^ self.pauli.x as usize;
            let to_left = self.exponent(right as u64);
            let to_right = self.exponent(left as u64);
            let p = amplitude::read(re, im, left);
            let q = amplitude::read(re, im, right);
            amplitude::write(re, im, left, complex::times_power(to_left, q));
            amplitude::write(re, im, right, complex::times_power(to_right, p));
        }
    }

    // k + 2 parity(basis and z), modulo 4.
    fn exponent(self, basis: u64) -> u8
        ensures { result ≡ (self.pauli.phase + 2 * overlap basis self.pauli.z) % 4 }
    {
        let even = self.pauli.phase % 4;
        if bits::is_odd_popcount(basis & self.pauli.z) {
            (even + 2) % 4
        } else {
            even
        }
    }
}
