// Which bits were mended (document 02, P1).
ghost use Rattle.std.specs.Prelude.{◌≡◌, cond, ℕ, ◌+◌, ◌<◌, length, get_or};
ghost use Rattle.code.specs.Readings.{reading_of};
ghost use Rattle.code.specs.Entries.{reading_at};
ghost use Rattle.code.specs.Mended.{mended_in, bit_counts};

use super::reading::{Reading, reading_at};
use super::table::{entry_of, wide};

// Adds an entry to the counts of the bits: one to that in which it was mended, if it was.
fn add_entry(counts: &mut [u32; 8], entry: u8)
    requires { (length counts.old ≡ 8) × ((i : ℕ) → i < 8 → get_or counts.old i 0 < 4294967295) }
    ensures { (length counts.new ≡ 8) × ((i : ℕ) → i < 8 → get_or counts.new i 0 ≡ get_or counts.old i 0 + cond (mended_in i (reading_at entry)) 1 0) }
{
    if let Reading::Mended(_, bit) = reading_at(entry) {
        counts[wide(bit)] += 1;
    }
}

// How many of sixteen bytes read mended in each of the bits 0 to 7.
pub fn mended_bits(bytes: &[u8; 16]) -> [u32; 8]
    ensures { result ≡ bit_counts 16 (λ k. reading_of (get_or bytes.now k 0)) }
{
    let mut counts = [0u32; 8];
    for byte in bytes {
        add_entry(&mut counts, entry_of(*byte));
    }
    counts
}
