// Packed-bit addressing (bits.rs): masks of 256 bits in four words, bit q at bit q % 64 of word q / 64.
#![tactic(auto)]

ghost use Rattle.std.specs.Prelude.{◌≡◌, ◌-◌, ◌<◌, ◌≤◌, ◌^◌, eqb, ltb};
ghost use Rattle.std.specs.Int.Bits.{bit_and, bit_xor};
ghost use Rattle.std.specs.Int.Count.{ones};
ghost use Rattle.bitlaws.specs.Digit.{bit_of, digit, put};
ghost use Rattle.masks.specs.Mask.{mask, bit_written};

// Whether a bit is set: none is from bit 256 on.
pub fn packed_bit(words: [u64; 4], bit_index: usize) -> bool
    ensures { result ≡ eqb (digit bit_index (mask words)) 1 }
{
    if 256 <= bit_index {
        return false;
    }
    let word = bit_index / 64;
    let bit = bit_index % 64;
    (words[word] >> bit) % 2 == 1
}

// The mask with a bit written. There is no room for one from bit 256 on: the mask comes back as it is.
pub fn set_packed_bit(words: [u64; 4], bit_index: usize, value: bool) -> [u64; 4]
    ensures { mask result ≡ bit_written bit_index value (mask words) }
{
    if 256 <= bit_index {
        return words;
    }
    let word = bit_index / 64;
    let mut out = words;
    out[word] = word_with_bit(words[word], bit_index % 64, value);
    out
}

fn word_with_bit(word: u64, bit: usize, value: bool) -> u64
    requires { bit < 64 }
    ensures { result ≡ put bit (bit_of value) word }
{
    let one = 1u64 << bit;
    let set = word | one;
    if value { set } else { set - one }
}

// The four words of a mask are written out, here and below: a chain over them would want a law for its fold and say no more.

// How many bits two masks share.
pub fn shared_ones(a: [u64; 4], b: [u64; 4]) -> u32
    ensures { (result ≡ ones (bit_and (mask a) (mask b))) × (result ≤ 256) }
{
    shared_in_word(a[0], b[0])
        + shared_in_word(a[1], b[1])
        + shared_in_word(a[2], b[2])
        + shared_in_word(a[3], b[3])
}

fn shared_in_word(a: u64, b: u64) -> u32
    ensures { (result ≡ ones (bit_and a b)) × (result ≤ 64) }
{
    u64::count_ones(a & b)
}

pub fn xor_words(a: [u64; 4], b: [u64; 4]) -> [u64; 4]
    ensures { mask result ≡ bit_xor (mask a) (mask b) }
{
    [a[0] ^ b[0], a[1] ^ b[1], a[2] ^ b[2], a[3] ^ b[3]]
}

// Whether no bit at or above the width is set.
pub fn mask_fits(words: [u64; 4], width: usize) -> bool
    ensures { result ≡ ltb (mask words) (2 ^ width) }
{
    word_fits(words[0], width)
        & word_fits(words[1], width.saturating_sub(64))
        & word_fits(words[2], width.saturating_sub(128))
        & word_fits(words[3], width.saturating_sub(192))
}

// Whether a word is below 2^width.
pub fn word_fits(word: u64, width: usize) -> bool
    ensures { result ≡ ltb word (2 ^ width) }
{
    if 64 <= width {
        return true;
    }
    word >> width == 0
}
