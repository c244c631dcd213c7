// The formulas of contiguous.rs's scalar loops on one amplitude: what a rotation makes of it, the square that a
// branch's probability adds for it, and the clamp of that sum. Each operation is rounded by itself.
#![tactic(auto)]

ghost use Rattle.std.specs.Prelude.{◌≡◌};
ghost use Rattle.amplitudelaws.specs.Binary as float;
ghost use Rattle.amplitudelaws.specs.Probability as sums;
ghost use Rattle.amplitudelaws.specs.Rotation.{rotated_alone, rotated_with};
ghost use Rattle.complex.specs.Complex.{complex_of};

use complex::Complex64;

// A rotation with x = 0: by itself.
#[tactic(auto, unfolding(amplitudelaws::specs::Rotation::rotated_alone))]
pub fn rotated_alone(c: f64, t: Complex64, p: Complex64) -> Complex64
    ensures { complex_of result ≡ rotated_alone float.binary c (complex_of t) (complex_of p) }
{
    let f = c + t.re;
    Complex64 {
        re: f * p.re - t.im * p.im,
        im: f * p.im + t.im * p.re,
    }
}

// A rotation with z = 0: with its partner q.
#[tactic(auto, unfolding(amplitudelaws::specs::Rotation::rotated_with))]
pub fn rotated_with(c: f64, t: Complex64, p: Complex64, q: Complex64) -> Complex64
    ensures { complex_of result ≡ rotated_with float.binary c (complex_of t) (complex_of p) (complex_of q) }
{
    Complex64 {
        re: c * p.re - t.im * q.im,
        im: c * p.im + t.im * q.re,
    }
}

// The square of its length.
#[tactic(auto, unfolding(amplitudelaws::specs::Probability::squared))]
pub fn squared(a: Complex64) -> f64
    ensures { result ≡ sums.squared float.binary (complex_of a) }
{
    a.re * a.re + a.im * a.im
}

// Below 0 gives 0, above 1 gives 1; a NaN is neither and stays.
#[tactic(auto, unfolding(amplitudelaws::specs::Binary::clamped))]
pub fn clamped(p: f64) -> f64
    ensures { result ≡ float.clamped p }
{
    p.clamp(0.0, 1.0)
}
