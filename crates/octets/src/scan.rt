// The first place of a byte.
ghost use Rattle.std.specs.Prelude.{◌≡◌, ◌+◌, ◌≤◌, length};
ghost use Rattle.octets.specs.Bytes.{index_of, slice};

// The place in `s` of the first such byte from `start` on and before `end`; `end` where there is none, since every caller cuts
// there then too.
pub fn find(s: &[u8], start: usize, end: usize, byte: u8) -> usize
    requires { (start ≤ end) × (end ≤ length s.now) }
    ensures { (result ≡ start + index_of byte (slice start end s.now)) × (result ≤ end) }
{
    match s[start..end].iter().position(|b| *b == byte) {
        Some(i) => start + i,
        None => end,
    }
}
