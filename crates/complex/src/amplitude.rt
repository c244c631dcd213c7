// One amplitude of a state's two lent lists, at any basis index. Where a list has no entry there, a NaN is read, and nothing written.
ghost use Rattle.std.specs.Prelude.{◌≡◌, get_or, set};
ghost use Rattle.std.specs.Float.{nan};
ghost use Rattle.amplitudelaws.specs.State.{point, set_point, state_of};
ghost use Rattle.complex.specs.Complex.{complex_of};

use crate::Complex64;

#[tactic(auto, unfolding(amplitudelaws::specs::State::point))]
pub fn read(re: &[f64], im: &[f64], b: usize) -> Complex64
    ensures { complex_of result ≡ point (state_of re.now im.now) b }
{
    Complex64 {
        re: part(re, b),
        im: part(im, b),
    }
}

#[tactic(auto, unfolding(amplitudelaws::specs::State::set_point))]
pub fn write(re: &mut [f64], im: &mut [f64], b: usize, a: Complex64)
    ensures { state_of re.new im.new ≡ set_point b (complex_of a) (state_of re.old im.old) }
{
    set_part(re, b, a.re);
    set_part(im, b, a.im);
}

fn part(parts: &[f64], b: usize) -> f64
    ensures { result ≡ get_or parts.now b nan }
{
    if b < parts.len() { parts[b] } else { f64::NAN }
}

fn set_part(parts: &mut [f64], b: usize, x: f64)
    ensures { parts.new ≡ set parts.old b x }
{
    if b < parts.len() {
        parts[b] = x;
    }
}
