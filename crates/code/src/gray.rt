// Gray words, and the way back to the count (document 01, "Nibbles, bytes and Gray words").
ghost use Rattle.std.specs.Prelude.{◌≡◌};
ghost use Rattle.code.specs.Gray.{gray_of, count_of, changed_bit};

// The Gray word of a count.
#[tactic(auto, unfolding(crate::specs::Gray::gray_of))]
pub fn gray_of(count: u32) -> u32
    ensures { result ≡ gray_of count }
{
    count ^ (count >> 1)
}

// The count of a Gray word: the word and all its halves, 32 in all, in one exclusive-or. Each line takes in twice as many of them.
pub fn count_of(gray: u32) -> u32
    ensures { result ≡ count_of gray }
{
    let two = gray ^ (gray >> 1);
    let four = two ^ (two >> 2);
    let eight = four ^ (four >> 4);
    let sixteen = eight ^ (eight >> 8);
    sixteen ^ (sixteen >> 16)
}

// The number of the one bit in which the Gray words of count - 1 and count differ.
#[tactic(auto, unfolding(crate::specs::Gray::bits, crate::specs::Gray::changed_bit))]
pub fn changed_bit(count: u32) -> u32
    ensures { result ≡ changed_bit count }
{
    count.trailing_zeros()
}
