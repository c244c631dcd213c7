// Elimination modulo 2: words are cleared digit by digit, each digit by the first word that has it, and one word
// beside them. What is left of that one says whether it was a sum of words, as far as these digits go.
ghost use Rattle.std.specs.Prelude.{◌≡◌, map};
ghost use Rattle.bitlaws.specs.Elimination as law;

// The first word that has digit j, 0 where none has.
fn first_with(words: &[u64], j: usize) -> u64
    ensures { result ≡ law.first_with j words.now }
{
    words
        .iter()
        .copied()
        .find(|word| bits::word_bit(*word, j))
        .unwrap_or(0)
}

// A word whose digit j, where it has it, is cleared by `other`.
#[tactic(auto, unfolding(bitlaws::specs::Elimination::cleared))]
fn cleared(word: u64, j: usize, other: u64) -> u64
    ensures { result ≡ law.cleared j other word }
{
    if bits::word_bit(word, j) {
        word ^ other
    } else {
        word
    }
}

// Every word so.
fn clear(words: &mut [u64], j: usize, other: u64)
    ensures { words.new ≡ map (law.cleared j other) words.old }
{
    for word in words.iter_mut() {
        *word = cleared(*word, j, other);
    }
}

// The lowest `digits` digits, one after the other: what is left of `word`.
#[tactic(auto, unfolding(bitlaws::specs::Elimination::word_after, bitlaws::specs::Elimination::words_after))]
pub(crate) fn eliminate(words: &mut [u64], word: u64, digits: usize) -> u64
    ensures word { result ≡ law.word_after digits words.old word }
    ensures words { words.new ≡ law.words_after digits words.old }
{
    let mut left = word;
    for j in 0..digits {
        let other = first_with(words, j);
        left = cleared(left, j, other);
        clear(words, j, other);
    }
    left
}
