// The cells not yet taken (document 01, "The map").
ghost use Rattle.std.specs.Prelude.{◌≡◌, ◌+◌, ◌<◌, ◌≤◌, length};
ghost use Rattle.counter.specs.Layout.{map_cells};
ghost use Rattle.counter.specs.Map.{pointer_of};
ghost use Rattle.counter.specs.Spares.{whole_area, narrow, gap_of, may_try, way_of, next_of, spares_of};

use super::layout::Layout;
use super::map::{Kind, pointer_of};
use super::places::Places;
use cells::row::Way;

impl Kind {
    // Which way the spares of a kind are tried.
    #[tactic(auto, unfolding(crate::specs::Spares::way_of))]
    pub(crate) fn way(self) -> Way
        ensures { result ≡ way_of self }
    {
        match self {
            Kind::High => Way::Up,
            Kind::Low => Way::Down,
        }
    }
}

// The next High address, and the lowest Low pointer: the cell past the area's end before any is taken.
#[derive(Clone, Copy, Debug, PartialEq, Eq)]
pub struct Gap {
    pub high: usize,
    pub low: usize,
}

impl Gap {
    // The gap before any cell is taken.
    #[tactic(auto, unfolding(crate::specs::Spares::whole_area))]
    pub(crate) fn whole(p: Places) -> Gap
        requires { p.end < 4096 }
        ensures { result ≡ whole_area p }
    {
        Gap {
            high: p.start,
            low: p.end + 1,
        }
    }

    // The gap with an address taken for a slot of a kind.
    #[tactic(auto, unfolding(crate::specs::Spares::narrow))]
    pub(crate) fn narrowed(self, kind: Kind, a: usize) -> Gap
        requires { a < 65536 }
        ensures { result ≡ narrow kind a self }
    {
        match kind {
            Kind::High => Gap {
                high: self.high.max(a + 1),
                low: self.low,
            },
            Kind::Low => Gap {
                high: self.high,
                low: self.low.min(a),
            },
        }
    }

    // The next address of a kind.
    #[tactic(auto, unfolding(crate::specs::Spares::next_of))]
    pub(crate) fn next(self, kind: Kind) -> usize
        requires { 1 ≤ self.low }
        ensures { result ≡ next_of kind self }
    {
        match kind {
            Kind::High => self.high,
            Kind::Low => self.low - 1,
        }
    }

    // How many cells from the next address on may be tried for a slot of a kind.
    #[tactic(auto, unfolding(crate::specs::Spares::spares_of))]
    pub(crate) fn spares(self, kind: Kind) -> usize
        requires { (self.high ≤ 256) × (self.high ≤ self.low) }
        ensures { result ≡ spares_of kind self }
    {
        match kind {
            Kind::High => self.low.min(256) - self.high,
            Kind::Low => self.low - self.high,
        }
    }

    // Whether an address may be tried as a spare for a slot of a kind. By three arms: with one test of both for a High slot, reading a map
    // whose order has to be looked at takes a quarter more instructions.
    #[tactic(auto, unfolding(crate::specs::Spares::may_try))]
    pub(crate) fn may_try(self, p: Places, kind: Kind, a: usize) -> bool
        ensures { result ≡ may_try p kind self a }
    {
        if a < p.start || p.end < a {
            return false;
        }
        match kind {
            Kind::High if 255 < a => false,
            Kind::High => a < self.low,
            Kind::Low => self.high <= a,
        }
    }
}

// The gap that the pointers of all slots leave.
pub(crate) fn gap_of(map: &[u8], p: Places, layout: Layout) -> Gap
    requires { (length map.now ≡ map_cells layout) × (length map.now ≤ 4096) × (p.end < 4096) }
    ensures { result ≡ gap_of layout p (pointer_of map.now) }
{
    let mut gap = Gap::whole(p);
    for slot in 0..8 * layout.copies {
        gap = gap.narrowed(Kind::of(slot), pointer_of(map, slot));
    }
    gap
}
