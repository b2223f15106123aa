// The readings of a byte (document 01, "Nibbles, bytes and Gray words"; document 02, P1 and P3).
ghost use Rattle.std.specs.Prelude.{◌≡◌};
ghost use Rattle.code.specs.Readings.{reading_of, twofold, is_lost, nibble_read};
ghost use Rattle.code.specs.Entries.{reading_at, twofold_at};

use super::table::entry_of;

// What a byte reads as: a nibble's own code; a byte one bit from it, with that bit's number, 0 (lowest) to 7; or nothing that
// can be told, as 00 and FF, which erased cells show.
#[derive(Clone, Copy, Debug, PartialEq, Eq)]
pub enum Reading {
    Clean(u8),
    Mended(u8, u8),
    Lost,
}

// The first entry of a mended byte, the entry of a lost one, and that of a byte one bit from two codes.
const MENDED: u8 = 16;

const LOST: u8 = 144;

const TWOFOLD: u8 = 145;

// The reading that an entry stands for.
pub fn reading_at(entry: u8) -> Reading
    ensures { result ≡ reading_at entry }
{
    if entry < MENDED {
        Reading::Clean(entry)
    } else if entry < LOST {
        Reading::Mended((entry - MENDED) / 8, (entry - MENDED) % 8)
    } else {
        Reading::Lost
    }
}

// Whether an entry stands for a byte one bit from two codes.
pub fn twofold_at(entry: u8) -> bool
    ensures { result ≡ twofold_at entry }
{
    entry == TWOFOLD
}

// What a byte reads as.
#[tactic(auto, using(crate::proofs::ReadingLaws::entry_reading))]
pub fn reading_of(byte: u8) -> Reading
    ensures { result ≡ reading_of byte }
{
    reading_at(entry_of(byte))
}

// Whether a byte is one bit from two codes (refusal 10): no byte is.
#[tactic(auto, using(crate::proofs::ReadingLaws::entry_twofold))]
pub fn twofold_byte(byte: u8) -> bool
    ensures { result ≡ twofold byte }
{
    twofold_at(entry_of(byte))
}

// Whether a reading tells nothing.
#[tactic(auto, unfolding(crate::specs::Readings::is_lost))]
pub fn is_lost(reading: Reading) -> bool
    ensures { result ≡ is_lost reading }
{
    matches!(reading, Reading::Lost)
}

// The nibble that a reading gives, 0 where it is lost.
#[tactic(auto, unfolding(crate::specs::Readings::nibble_read))]
pub fn nibble_read(reading: Reading) -> u8
    ensures { result ≡ nibble_read reading }
{
    match reading {
        Reading::Clean(d) | Reading::Mended(d, _) => d,
        Reading::Lost => 0,
    }
}
