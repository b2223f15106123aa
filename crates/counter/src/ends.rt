// The ends of a map: its highest High pointer and its lowest Low one (document 02, P8).
ghost use Rattle.std.specs.Prelude.{◌≡◌};
ghost use Rattle.counter.specs.Layout.{two};
ghost use Rattle.counter.specs.Ends.{usable, ends_of};

use super::layout::TWO;
use super::map::Map;
use super::places::Places;
use super::soundness::map_sound;
use super::spares::gap_of;
use super::standing::{Standing, standing_of};

// The highest High pointer and the lowest Low one; both are 0 where there is no map that can be used, as in `ends_of` of specs.
#[derive(Clone, Copy, Debug, PartialEq, Eq)]
pub struct Ends {
    pub highest: usize,
    pub lowest: usize,
}

// Whether an image's map can be used: refusals 1 to 4 do not hold.
fn is_usable(image: &[u8], p: Places) -> bool
    ensures { result ≡ usable two p image.now }
{
    match standing_of(image, p) {
        Standing::Marked => map_sound(image, p),
        Standing::Unfit(_) | Standing::Unmarked => false,
    }
}

// The ends of an image's map.
pub fn ends_of(image: &[u8], p: Places) -> Ends
    ensures { result ≡ ends_of two p image.now }
{
    if !is_usable(image, p) {
        return Ends {
            highest: 0,
            lowest: 0,
        };
    }
    let gap = gap_of(Map::at(p.map).cells(image), p, TWO);
    Ends {
        highest: gap.high - 1,
        lowest: gap.low,
    }
}
