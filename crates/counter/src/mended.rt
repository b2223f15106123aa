// Which bits were mended (document 02, P1): a count for each bit, over the sixteen data cells.
ghost use Rattle.std.specs.Prelude.{◌≡◌};
ghost use Rattle.code.specs.Readings.{reading_of};
ghost use Rattle.code.specs.Mended.{bit_counts};
ghost use Rattle.counter.specs.Layout.{two, slots};
ghost use Rattle.counter.specs.Reading.{data_at, verdict_of};
ghost use Rattle.counter.specs.Mended.{bits_of};
ghost use Rattle.counter.specs.Inside.{Reaches, verdict_in, ExactIf};

use super::map::Map;
use super::places::Places;
use super::reading::{Count, data_of};
use super::verdict::Refusal;
use code::mended::mended_bits;

// How many of the bytes at all pointers read mended in each bit.
fn counted(image: &[u8], map: &[u8; Map::SIZE]) -> [u32; 8]
    requires { Reaches image.now map.now }
    ensures { result ≡ bit_counts (slots two) (λ k. reading_of (data_at image.now map.now k)) }
{
    mended_bits(&data_of(image, map))
}

// The counts of an image, given what it was found to read as. A refusal has none, and where all slots hold the count's codes
// nothing was mended.
pub(crate) fn bits_of(image: &[u8], p: Places, found: Result<Count, Refusal>) -> [u32; 8]
    requires { (verdict_in found ≡ verdict_of two p image.now) × ExactIf two p found image.now }
    ensures { result ≡ bits_of two p image.now }
{
    match found {
        Ok(read) => {
            if read.exact {
                return [0u32; 8];
            }
            counted(image, Map::at(p.map).cells(image))
        }
        Err(_) => [0u32; 8],
    }
}
