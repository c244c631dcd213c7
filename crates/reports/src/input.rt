// A step number as text.
ghost use Rattle.std.specs.Prelude.{◌≡◌, true, ◌≤◌};
ghost use Rattle.reports.specs.Input.{is_digit, grown, no_step};
ghost use Rattle.reports.specs.Input.{number as input_number};

// No run has a step of this number. A larger one is taken for it, and so is what is no number.
const NO_STEP: usize = 65536;

// A digit behind a number.
#[tactic(auto, unfolding(crate::specs::Input::is_digit, crate::specs::Input::grown))]
fn grow(value: usize, digit: u8) -> usize
    requires { (value ≤ no_step) × (is_digit digit ≡ true) }
    ensures { (result ≡ grown value digit) × (result ≤ no_step) }
{
    (10 * value + usize::from(digit - b'0')).min(NO_STEP)
}

// The number whose decimal digits the text is.
pub(crate) fn number(text: &[u8]) -> usize
    ensures { result ≡ input_number text.now }
{
    if text.is_empty() {
        return NO_STEP;
    }
    let mut value = 0;
    for &byte in text {
        if !byte.is_ascii_digit() {
            return NO_STEP;
        }
        value = grow(value, byte);
    }
    value
}
