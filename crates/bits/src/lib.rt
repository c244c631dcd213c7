// Bits of one word (bits.rs, and insert_zero_bit of active.rs): the parity of a word, its highest bit, and
// a zero bit opened in a basis index.
#![tactic(auto)]

ghost use Rattle.std.specs.Prelude.{◌≡◌, eqb, ◌<◌, ◌+◌, ◌%◌, ◌^◌};
ghost use Rattle.bitlaws.specs.Digit.{bit_of, digit};
ghost use Rattle.bitlaws.specs.Highest.{highest};
ghost use Rattle.bitlaws.specs.Opening as law;
ghost use Rattle.bitlaws.specs.Parity.{parity, overlap};
ghost use Rattle.refusals.specs.Refusal.{answer_of};
ghost use Rattle.refusals.specs.Optional.{option_of};
ghost use Rattle.bits.specs.Opening.{opening};

use refusals::Row;

// Whether the count of ones in a word is odd.
#[tactic(auto, unfolding(bitlaws::specs::Parity::parity))]
pub fn is_odd_popcount(value: u64) -> bool
    ensures { result ≡ eqb (parity value) 1 }
{
    u64::count_ones(value) % 2 == 1
}

// Whether bit q of a word is set: none is from bit 64 on.
#[tactic(auto, unfolding(bitlaws::specs::Digit::digit))]
pub fn word_bit(word: u64, q: usize) -> bool
    ensures { result ≡ eqb (digit q word) 1 }
{
    if 64 <= q {
        return false;
    }
    (word >> q) % 2 == 1
}

// Whether a bit differs from the parity of what two words share.
pub fn differs_from_parity(bit: bool, a: u64, b: u64) -> bool
    ensures { result ≡ eqb ((bit_of bit + overlap a b) % 2) 1 }
{
    bit ^ is_odd_popcount(a & b)
}

// Widens `packed` by opening a zero bit at position `bit`: the inverse of dropping qubit `bit` from
// a basis index. A top bit that would move past bit 63 is lost; a position over 63 is refused by 5.
#[tactic(auto, unfolding(crate::specs::Opening::opening, answers::specs::Answer::refuse))]
pub fn insert_zero_bit(packed: usize, bit: usize) -> Result<usize, Row>
    ensures { answer_of (λ i. i) result ≡ opening packed bit }
{
    if 63 < bit {
        return Err(Row::NoSuchQubit);
    }
    Ok(open_bit(packed, bit))
}

// The same without a refusal: behind the word there is nothing to move.
pub fn open_bit(packed: usize, bit: usize) -> usize
    ensures { result ≡ law.open_bit bit packed % 2 ^ 64 }
{
    if 64 <= bit {
        return packed;
    }
    let low_mask = (1usize << bit) - 1;
    (packed & low_mask) | ((packed & !low_mask) << 1)
}

// The highest set bit of a word, if it has one.
pub fn highest_bit(word: u64) -> Option<usize>
    ensures { option_of result ≡ highest 64 word }
{
    if word == 0 {
        return None;
    }
    let place = 63 - u64::leading_zeros(word);
    Some(place as usize)
}
