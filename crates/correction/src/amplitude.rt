// One amplitude of a state's two lent lists, at a basis in both. It stands in each crate whose loops read or write one:
// complex' own, which is open to others and asks nothing, looks for the end of each list every time.
ghost use Rattle.std.specs.Prelude.{◌≡◌};
ghost use Rattle.amplitudelaws.specs.Lent.{In};
ghost use Rattle.amplitudelaws.specs.State.{point, set_point, state_of};
ghost use Rattle.complex.specs.Complex.{complex_of};

use complex::Complex64;

#[tactic(auto, unfolding(amplitudelaws::specs::State::point))]
pub(crate) fn read(re: &[f64], im: &[f64], b: usize) -> Complex64
    requires { In b re.now im.now }
    ensures { complex_of result ≡ point (state_of re.now im.now) b }
{
    Complex64 {
        re: re[b],
        im: im[b],
    }
}

#[tactic(auto, unfolding(amplitudelaws::specs::State::set_point))]
pub(crate) fn write(re: &mut [f64], im: &mut [f64], b: usize, a: Complex64)
    requires { In b re.old im.old }
    ensures { state_of re.new im.new ≡ set_point b (complex_of a) (state_of re.old im.old) }
{
    re[b] = a.re;
    im[b] = a.im;
}
