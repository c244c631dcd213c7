// Pairs of floats: the coefficients m and w of the kernels, and the amplitudes. Each operation is
// rounded by itself, in the order of the formulas; nothing is fused. They are functions and no `Mul` or `Neg`: an operator would
// not tell which order of rounding is meant.
#![tactic(auto)]

pub mod amplitude;
#[cfg(test)]
mod tests;

ghost use Rattle.std.specs.Prelude.{◌≡◌, ◌%◌};
ghost use Rattle.bitlaws.specs.Digit.{bit_of};
ghost use Rattle.amplitudelaws.specs.Arithmetic as formula;
ghost use Rattle.amplitudelaws.specs.Binary.{binary};
ghost use Rattle.complex.specs.Complex.{complex_of};

// re + i im.
#[repr(C)]
#[derive(Clone, Copy)]
pub struct Complex64 {
    pub re: f64,
    pub im: f64,
}

// The bits of h, 1/sqrt 2.
pub const H_BITS: u64 = 0x3FE6A09E667F3BCD;

// i^phase, by the phase modulo 4.
#[tactic(auto, unfolding(amplitudelaws::specs::Arithmetic::power))]
pub fn phase_factor(phase: u8) -> Complex64
    ensures { complex_of result ≡ formula.power binary (phase % 4) }
{
    match phase % 4 {
        0 => Complex64 { re: 1.0, im: 0.0 },
        1 => Complex64 { re: 0.0, im: 1.0 },
        2 => Complex64 { re: -1.0, im: 0.0 },
        _ => Complex64 { re: 0.0, im: -1.0 },
    }
}

// i^exponent times the amplitude, by exchanging and negating its parts; the exponent counts modulo 4.
#[tactic(auto, unfolding(amplitudelaws::specs::Arithmetic::times_power, amplitudelaws::specs::Arithmetic::negated))]
pub fn times_power(exponent: u8, a: Complex64) -> Complex64
    ensures { complex_of result ≡ formula.times_power binary (exponent % 4) (complex_of a) }
{
    match exponent % 4 {
        0 => a,
        1 => Complex64 {
            re: -a.im,
            im: a.re,
        },
        2 => negated(true, a),
        _ => Complex64 {
            re: a.im,
            im: -a.re,
        },
    }
}

#[tactic(auto, unfolding(amplitudelaws::specs::Arithmetic::times))]
pub fn times(a: Complex64, b: Complex64) -> Complex64
    ensures { complex_of result ≡ formula.times binary (complex_of a) (complex_of b) }
{
    Complex64 {
        re: a.re * b.re - a.im * b.im,
        im: a.re * b.im + a.im * b.re,
    }
}

#[tactic(auto, unfolding(amplitudelaws::specs::Arithmetic::conjugate))]
pub fn conjugate(a: Complex64) -> Complex64
    ensures { complex_of result ≡ formula.conjugate binary (complex_of a) }
{
    Complex64 {
        re: a.re,
        im: -a.im,
    }
}

// The negative where `odd`.
#[tactic(auto, unfolding(amplitudelaws::specs::Arithmetic::negated))]
pub fn negated(odd: bool, a: Complex64) -> Complex64
    ensures { complex_of result ≡ formula.negated binary odd (complex_of a) }
{
    if odd {
        return Complex64 {
            re: -a.re,
            im: -a.im,
        };
    }
    a
}

// -1 where `odd`, else 1.
#[tactic(auto, unfolding(amplitudelaws::specs::Arithmetic::direction))]
pub fn direction(odd: bool) -> f64
    ensures { result ≡ formula.direction binary (bit_of odd) }
{
    if odd { -1.0 } else { 1.0 }
}

// c times each part.
#[tactic(auto, unfolding(amplitudelaws::specs::Arithmetic::scale))]
pub fn scale(c: f64, a: Complex64) -> Complex64
    ensures { complex_of result ≡ formula.scale binary c (complex_of a) }
{
    Complex64 {
        re: c * a.re,
        im: c * a.im,
    }
}

// Each part times c.
#[tactic(auto, unfolding(amplitudelaws::specs::Arithmetic::scaled))]
pub fn scaled(a: Complex64, c: f64) -> Complex64
    ensures { complex_of result ≡ formula.scaled binary (complex_of a) c }
{
    Complex64 {
        re: a.re * c,
        im: a.im * c,
    }
}

// c p + u q, each sum from left to right.
#[tactic(auto, unfolding(amplitudelaws::specs::Arithmetic::mixed))]
pub fn mixed(c: f64, u: Complex64, p: Complex64, q: Complex64) -> Complex64
    ensures { complex_of result ≡ formula.mixed binary c (complex_of u) (complex_of p) (complex_of q) }
{
    Complex64 {
        re: c * p.re + u.re * q.re - u.im * q.im,
        im: c * p.im + u.re * q.im + u.im * q.re,
    }
}
