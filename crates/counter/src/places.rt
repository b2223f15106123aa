// The image's length and the place settings (document 01, "The chip as lent").
ghost use Rattle.std.specs.Prelude.{◌≡◌};
ghost use Rattle.counter.specs.Layout.{two};
ghost use Rattle.counter.specs.Places.{length_good, places_good};

use super::map::Map;

// Where the map starts, and the area's first and last cell.
#[derive(Clone, Copy, Debug, PartialEq, Eq)]
pub struct Places {
    pub map: usize,
    pub start: usize,
    pub end: usize,
}

impl Places {
    // Setting A, that of the control box (document 01, "Measured on the bench").
    pub const SETTING_A: Places = Places {
        map: 1,
        start: 25,
        end: 128,
    };
}

// Whether an image of n cells is neither too short nor too long.
#[tactic(auto, unfolding(crate::specs::Places::length_good))]
pub(crate) fn length_good(n: usize) -> bool
    ensures { result ≡ length_good two n }
{
    (41..=4096).contains(&n)
}

// Whether the place settings are good for an image of n cells. No sum can wrap. A map below the area is in the image
// where the area is.
pub(crate) fn places_good(n: usize, p: Places) -> bool
    ensures { result ≡ places_good two n p }
{
    if p.start < 1
        || 246 < p.start
        || n <= p.end
        || p.end < p.start + (Map::SLOTS - 1)
        || p.map < 1
    {
        return false;
    }
    if p.map <= p.start {
        return Map::SIZE <= p.start - p.map;
    }
    if p.map <= p.end || n < Map::SIZE {
        return false;
    }
    p.map <= n - Map::SIZE
}
