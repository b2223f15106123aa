// The table of 256 entries, one for each byte, in which a byte's reading is looked up (document 01, "Nibbles, bytes and Gray
// words"; document 02, P3). A byte that is the code of d has the entry d, one mended to d in bit i has 16 + 8 * d + i, a lost one
// has 144, and one that is one bit from two codes would have 145. 00 and FF, which erased cells show, are lost, though each is
// one bit from a code. Entries are numbers, not values of an enum, so that to read one is to load a byte.
ghost use Rattle.std.specs.Prelude.{◌≡◌, ℕ, ◌<◌, get_or};
ghost use Rattle.code.specs.Entries.{entry_of, entries};

// The entries of the bytes 00 to FF.
static TABLE: [u8; 256] = [
    144, // 00
    144, 144, 26, 144, 25, 24, 1, 144, 36, 53, 144, 94, 144, 144, 27, 144, 35, 62, 144, 85, 144,
    144, 28, 32, 2, 144, 33, 144, 34, 119, 144, 144, 46, 51, 144, 84, 144, 144, 29, 49, 144, 4, 48,
    144, 103, 50, 144, 82, 144, 144, 71, 8, 80, 81, 144, 144, 37, 52, 144, 83, 144, 144, 142, 144,
    45, 60, 144, 91, 144, 144, 30, 90, 144, 144, 79, 9, 88, 89, 144, 57, 144, 5, 56, 144, 111, 58,
    144, 144, 38, 59, 144, 92, 144, 144, 141, 40, 3, 144, 41, 144, 42, 127, 144, 144, 43, 54, 144,
    93, 144, 144, 140, 144, 44, 61, 144, 86, 144, 144, 139, 135, 144, 144, 138, 144, 137, 136, 15,
    0, 16, 17, 144, 18, 144, 144, 31, 19, 144, 144, 78, 144, 101, 116, 144, 20, 144, 144, 69, 144,
    110, 115, 144, 144, 39, 114, 144, 113, 144, 12, 112, 21, 144, 144, 68, 144, 99, 126, 144, 144,
    98, 55, 144, 96, 10, 144, 97, 144, 65, 64, 6, 87, 144, 144, 66, 134, 144, 144, 67, 144, 100,
    117, 144, 22, 144, 144, 75, 144, 108, 125, 144, 144, 73, 72, 7, 95, 144, 144, 74, 144, 106, 63,
    144, 104, 11, 144, 105, 133, 144, 144, 76, 144, 107, 118, 144, 144, 47, 122, 144, 121, 144, 13,
    120, 132, 144, 144, 77, 144, 102, 123, 144, 131, 144, 144, 70, 144, 109, 124, 144, 14, 128,
    129, 144, 130, 144, 144, 144, // FF
];

// The table where it stands.
pub fn lent() -> &'static [u8; 256]
    ensures { result.now ≡ entries }
{
    &TABLE
}

// A table of one's own. It stands beside `lent`, since docs/PROMISES.md names it.
pub fn laid() -> [u8; 256]
    ensures { result ≡ entries }
{
    *lent()
}

// A byte as a number of any size. Public and promised, so it stands beside `usize::from`.
pub fn wide(byte: u8) -> usize
    ensures { (result ≡ byte) × (result < 256) }
{
    byte as usize
}

// The entry of a byte.
#[tactic(auto, using(crate::proofs::ReadingLaws::entry_at))]
pub(crate) fn entry_of(byte: u8) -> u8
    ensures { result ≡ entry_of byte }
{
    lent()[wide(byte)]
}

// The entries of sixteen bytes.
#[tactic(auto, using(crate::proofs::ReadingLaws::entry_at))]
pub fn entries_of(bytes: &[u8; 16]) -> [u8; 16]
    ensures { (k : ℕ) → k < 16 → (get_or result k 0 ≡ entry_of (get_or bytes.now k 0)) × (get_or bytes.now k 0 < 256) }
{
    bytes.map(entry_of)
}
