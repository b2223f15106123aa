// A word and its eight nibbles, the lowest being nibble 0 (document 01, "Nibbles, bytes and Gray words").
ghost use Rattle.std.specs.Prelude.{◌≡◌};
ghost use Rattle.code.specs.Nibbles.{nibble_of, word_of};

// Nibble k of a word; 0 past the eighth.
#[tactic(auto, using(crate::proofs::NibbleLaws::sixteens, crate::proofs::NibbleLaws::nibble_past), unfolding(crate::specs::Nibbles::nibble_of))]
pub fn nibble_of(word: u32, k: usize) -> u8
    ensures { result ≡ nibble_of word k }
{
    if k < 8 {
        ((word >> (4 * k)) % 16) as u8
    } else {
        0
    }
}

// The word of eight nibbles; of a larger number only the low four bits count.
pub fn word_of(nibbles: [u8; 8]) -> u32
    ensures { result ≡ word_of nibbles }
{
    nibbles
        .iter()
        .rev()
        .fold(0, |word, nibble| (word << 4) | (*nibble % 16) as u32)
}
