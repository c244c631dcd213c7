// The two halves of the wider state, written from the narrower one.
ghost use Rattle.std.specs.Prelude.{◌≡◌, suc, ◌≤◌};
ghost use Rattle.amplitudelaws.specs.Binary.{binary};
ghost use Rattle.amplitudelaws.specs.Lent.{Room};
ghost use Rattle.amplitudelaws.specs.Promotion.{raised, promoted};
ghost use Rattle.amplitudelaws.specs.Rows.{widest_promotion};
ghost use Rattle.amplitudelaws.specs.State.{point, written, state_of};
ghost use Rattle.complex.specs.Complex.{complex_of};

use crate::amplitude;
use complex::Complex64;

#[tactic(auto, using(bitlaws::specs::Digit::one_shifted, amplitudelaws::specs::Sweeping::sweeping_none))]
pub(crate) fn promote(re: &mut [f64], im: &mut [f64], nqubits: usize, c: f64, q: f64)
    requires { (nqubits ≤ widest_promotion) × Room (suc nqubits) re.old im.old }
    ensures { let S = state_of re.old im.old in
        state_of re.new im.new ≡ written (suc nqubits) (promoted binary nqubits c q (point S)) S }
{
    let dim = 1usize << nqubits;
    for b in 0..dim {
        let p = amplitude::read(re, im, b);
        amplitude::write(re, im, b, complex::scale(c, p));
        amplitude::write(re, im, dim + b, times_i(q, p));
    }
}

// i q times the amplitude.
#[tactic(auto, unfolding(amplitudelaws::specs::Promotion::raised))]
fn times_i(q: f64, p: Complex64) -> Complex64
    ensures { complex_of result ≡ raised binary q (complex_of p) }
{
    Complex64 {
        re: -q * p.im,
        im: q * p.re,
    }
}
