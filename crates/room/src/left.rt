// How many spare cells are left (document 02, P8), High ones and Low ones; a cell that either kind could use is counted for both.
ghost use Rattle.std.specs.Prelude.{◌≡◌};
ghost use Rattle.counter.specs.Layout.{two};
ghost use Rattle.room.specs.Room.{between, left_of, room_of};

use counter::ends::{Ends, ends_of};
use counter::places::Places;

// The spare cells of each kind.
#[derive(Clone, Copy, Debug, PartialEq, Eq)]
pub struct Room {
    pub high: usize,
    pub low: usize,
}

// How many cells lie between two.
fn cells_between(below: usize, above: usize) -> usize
    ensures { result ≡ between below above }
{
    above.saturating_sub(below).saturating_sub(1)
}

// The High cells lie below this address.
const BORDER: usize = 256;

// The room between two ends. The High cells end at the border, or at the lowest Low pointer where that is below it.
#[tactic(auto, unfolding(crate::specs::Room::left_of))]
pub fn room_left(ends: Ends) -> Room
    ensures { result ≡ left_of ends }
{
    Room {
        high: cells_between(ends.highest, BORDER.min(ends.lowest)),
        low: cells_between(ends.highest, ends.lowest),
    }
}

// The room in an image, counted from its whole map.
pub fn room_of(image: &[u8], p: Places) -> Room
    ensures { result ≡ room_of two p image.now }
{
    room_left(ends_of(image, p))
}
