// The sixteen codes, and the distance of two bytes (document 01, "Nibbles, bytes and Gray words").
ghost use Rattle.std.specs.Prelude.{◌≡◌};
ghost use Rattle.code.specs.Codes.{code_of, distance};

// The codes of 0 to 15.
const CODES: [u8; 16] = [
    0x80, 0x07, 0x19, 0x61, 0x2A, 0x52, 0xB3, 0xCB, 0x34, 0x4C, 0xAD, 0xD5, 0x9E, 0xE6, 0xF8, 0x7F,
];

// The code of a nibble; of a larger number only the low four bits count.
#[tactic(auto, unfolding(crate::specs::Codes::codes, crate::specs::Codes::code_of))]
pub fn code_of(nibble: u8) -> u8
    ensures { result ≡ code_of nibble }
{
    CODES[(nibble % 16) as usize]
}

// The number of bits in which two bytes differ.
#[tactic(auto, unfolding(crate::specs::Codes::distance))]
pub fn distance_of(a: u8, b: u8) -> u32
    ensures { result ≡ distance a b }
{
    (a ^ b).count_ones()
}
