// Bytes copied from one slice to another, and a byte looked for in one.
#![tactic(auto)]

ghost use Rattle.std.specs.Prelude.{◌≡◌, ◌++◌, ◌≤◌, length, take, drop};

pub mod scan;

// Copies a text to the front of `to`, and answers its length. What lay behind it stays.
pub fn copy(from: &[u8], to: &mut [u8]) -> usize
    requires { length from.now ≤ length to.old }
    ensures { (result ≡ length from.now)
        × (to.new ≡ take (length from.now) from.now ++ drop (length from.now) to.old) }
{
    let len = from.len();
    to[..len].copy_from_slice(from);
    len
}
