// The map (document 01, "The map"), handed on as the part of the image that starts at its place: its mark
// and its pointers. Slot k stands for nibble k % 8 of copy k / 8.
ghost use Rattle.std.specs.Prelude.{◌≡◌, ℕ, ◌+◌, ◌/◌, ◌%◌, ◌<◌, ◌≤◌, length, take, drop, slice_index};
ghost use Rattle.counter.specs.Layout.{two, slots, map_cells};
ghost use Rattle.counter.specs.Slots.{kind_of};
ghost use Rattle.counter.specs.Map.{marked, part_at, offset_of, pointer_of};

use super::layout::Layout;
use std::array;

// High cells hold nibbles 3 to 7, Low cells nibbles 0 to 2.
#[derive(Clone, Copy, Debug, PartialEq, Eq)]
pub enum Kind {
    High,
    Low,
}

impl Kind {
    // The kind of a slot.
    #[tactic(auto, unfolding(crate::specs::Slots::kind_of))]
    pub(crate) fn of(slot: usize) -> Kind
        ensures { result ≡ kind_of slot }
    {
        if slot % 8 < 3 { Kind::Low } else { Kind::High }
    }
}

// A map, by its place in the image.
#[derive(Clone, Copy, Debug, PartialEq, Eq)]
pub struct Map {
    pub place: usize,
}

impl Map {
    // its cells, and the slots that it has pointers for
    pub const SIZE: usize = 24;

    pub const SLOTS: usize = 16;
    // the mark's two bytes
    pub const MARK_FIRST: u8 = 0xA5;

    pub const MARK_SECOND: u8 = 0x5A;
    // the first offset of a copy, and the cells of a copy
    pub const FIRST_COPY: usize = 2;

    pub const COPY_SIZE: usize = 11;

    // The map at a place.
    pub(crate) fn at(place: usize) -> Map
        ensures { result.place ≡ place }
    {
        Map { place }
    }

    // The map's cells, as a part of the image.
    pub(crate) fn cells(self, image: &[u8]) -> &[u8; Map::SIZE]
        requires { self.place + map_cells two ≤ length image.now }
        ensures { result.now ≡ take (map_cells two) (drop self.place image.now) }
    {
        let to = self.place + Map::SIZE;
        image[self.place..to].as_array().unwrap()
    }

    // The cells of a map of any layout.
    pub(crate) fn cells_for(self, layout: Layout, image: &[u8]) -> &[u8]
        requires { (self.place + map_cells layout ≤ length image.now) × (length image.now ≤ 4096) }
        ensures { result.now ≡ take (map_cells layout) (drop self.place image.now) }
    {
        let from = self.place;
        let to = from + (Map::FIRST_COPY + Map::COPY_SIZE * layout.copies);
        &image[from..to]
    }
}

// Whether both bytes of the mark are there.
#[tactic(auto, unfolding(crate::specs::Map::marked))]
pub(crate) fn is_marked(map: &[u8; Map::SIZE]) -> bool
    ensures { result ≡ marked map.now }
{
    map[0] == Map::MARK_FIRST && map[1] == Map::MARK_SECOND
}

// Where a slot's pointer starts in the map.
pub(crate) fn offset_of(slot: usize) -> usize
    requires { slot < 4096 }
    ensures { result ≡ offset_of slot }
{
    let nibble = slot % 8;
    let copy = Map::FIRST_COPY + Map::COPY_SIZE * (slot / 8);
    match Kind::of(slot) {
        Kind::Low => copy + 2 * nibble,
        Kind::High => copy + (nibble + 3),
    }
}

// A slot's pointer: two bytes, low byte first, for a Low one, and one for a High one. Each arm works out where it starts,
// so that the compiler tests the slot's kind once.
pub(crate) fn pointer_of(map: &[u8], slot: usize) -> usize
    requires { (slot < 4096) × (part_at two (slot / 8 + 1) ≤ length map.now) }
    ensures { (result ≡ pointer_of map.now slot) × (result < 65536) × (3 ≤ slot % 8 → result < 256) }
{
    match Kind::of(slot) {
        Kind::Low => {
            let at = offset_of(slot);
            usize::from(map[at]) + 256 * usize::from(map[at + 1])
        }
        Kind::High => usize::from(map[offset_of(slot)]),
    }
}

// The pointers of all slots, for a test that reads each many times.
pub(crate) fn pointers_of(map: &[u8; Map::SIZE]) -> [usize; Map::SLOTS]
    ensures { (k : ℕ) → k < slots two → slice_index result k ≡ pointer_of map.now k }
{
    array::from_fn(|slot| pointer_of(map, slot))
}
