// Storing a count (document 01, "Storing, opening, stepping"). The functions that store a slot or a count ask for a chip with
// its lives, good settings and a sound map; the doors see to that. First comes the plain way, for any layout and on mains that can
// be lost (document 02, P6); behind it the quick ways of two copies, which are whole.
ghost use Rattle.std.specs.Prelude.{◌≡◌, ◌+◌, ◌^◌, ◌<◌, ◌≤◌, true, length};
ghost use Rattle.cells.specs.Chip.{chip};
ghost use Rattle.cells.specs.Run.{seen, view, plus};
ghost use Rattle.cells.specs.Cut.{Says, sight, walk_shows};
ghost use Rattle.counter.specs.Layout.{two, slots};
ghost use Rattle.counter.specs.Slots.{kind_of};
ghost use Rattle.counter.specs.Places.{places, places_good};
ghost use Rattle.counter.specs.Map.{map_in, pointer_of, sound, reachable};
ghost use Rattle.counter.specs.Verdict.{◌and_then◌};
ghost use Rattle.counter.specs.Store.{put_pointer, try_spares, move_slot, store_slot, store};
ghost use Rattle.counter.specs.Doors.{last_count};
ghost use Rattle.counter.specs.Inside.{fitted, behind, mapped_row, Holds, Works};

use super::layout::{Layout, TWO};
use super::map::{Kind, Map, offset_of, pointer_of};
use super::places::Places;
use super::spares::{Gap, gap_of};
use super::verdict::{Refusal, Work};
use cells::mains::{Mains, PowerLost, put_on};
use cells::put::put;
use cells::row::{RowPut, Walked, put_row, walk};
use code::codes::code_of;
use code::gray::{changed_bit, gray_of};
use code::nibbles::nibble_of;

// What a piece of storing came to: how it ended, the writes asked for, and the spares tried.
#[derive(Clone, Copy)]
pub struct Stored {
    pub work: Work,
    pub writes: usize,
    pub tried: usize,
}

impl Stored {
    // The same behind work that took so many writes and tries.
    pub(crate) fn behind(self, writes: usize, tried: usize) -> Stored
        requires { (writes + self.writes < 2 ^ 64) × (tried + self.tried < 2 ^ 64) }
        ensures { result ≡ behind writes tried self }
    {
        Stored {
            work: self.work,
            writes: writes + self.writes,
            tried: tried + self.tried,
        }
    }
}

// What a row of map bytes came to: done, or stopped at the byte whose put failed.
pub(crate) fn mapped(row: RowPut) -> Stored
    ensures { result ≡ mapped_row row }
{
    let work = match row.failed {
        None => Ok(()),
        Some(address) => Err(Refusal::MapByte(address)),
    };
    Stored {
        work,
        writes: row.writes,
        tried: 0,
    }
}

// An address put as a slot's pointer, low byte first.
fn put_pointer(
    image: &mut [u8],
    lives: &mut [u32],
    p: Places,
    layout: Layout,
    slot: usize,
    a: usize,
    mains: Mains,
) -> Result<Stored, PowerLost>
    requires { (fitted layout p (chip image.old lives.old) ≡ true) × (slot < slots layout) × (a < 65536) × (reachable (kind_of slot) a ≡ true) }
    ensures { Works result (chip image.new lives.new) mains (put_pointer layout p slot a (chip image.old lives.old)) (chip image.old lives.old) }
{
    let at = p.map + offset_of(slot);
    let low = (a % 256) as u8;
    match Kind::of(slot) {
        Kind::Low => {
            let row = put_row(image, lives, at, &[low, (a / 256) as u8], mains)?;
            Ok(mapped(row))
        }
        Kind::High => {
            let row = put_row(image, lives, at, &[low], mains)?;
            Ok(mapped(row))
        }
    }
}

// The spares of a slot's kind that a gap leaves, tried one after another until one holds the byte.
fn try_spares(
    image: &mut [u8],
    lives: &mut [u32],
    slot: usize,
    gap: Gap,
    byte: u8,
    mains: Mains,
) -> Result<Walked, PowerLost>
    requires { (length lives.old ≡ length image.old) × (1 ≤ gap.high) × (gap.high ≤ 256) × (gap.high ≤ gap.low) × (gap.low ≤ length image.old) }
    ensures { Says (sight walk_shows result (chip image.new lives.new)) mains.power mains.torn (try_spares slot gap byte (chip image.old lives.old)) (chip image.old lives.old) }
{
    let kind = Kind::of(slot);
    walk(
        image,
        lives,
        gap.spares(kind),
        kind.way(),
        gap.next(kind),
        byte,
        mains,
    )
}

// A byte moved to a spare of a slot's kind.
fn move_slot(
    image: &mut [u8],
    lives: &mut [u32],
    p: Places,
    layout: Layout,
    slot: usize,
    byte: u8,
    mains: Mains,
) -> Result<Stored, PowerLost>
    requires { (fitted layout p (chip image.old lives.old) ≡ true) × (sound layout p (pointer_of (map_in layout p image.old)) ≡ true) × (slot < slots layout) }
    ensures { Works result (chip image.new lives.new) mains (move_slot layout p slot byte (chip image.old lives.old)) (chip image.old lives.old) }
{
    let gap = gap_of(Map::at(p.map).cells_for(layout, image), p, layout);
    let walked = try_spares(image, lives, slot, gap, byte, mains)?;
    let Some(spare) = walked.found else {
        return Ok(Stored {
            work: Err(Refusal::NoSpare(slot)),
            writes: walked.writes,
            tried: walked.tried,
        });
    };
    let left = mains.behind(walked.writes);
    let stored = put_pointer(image, lives, p, layout, slot, spare, left)?;
    Ok(stored.behind(walked.writes, walked.tried))
}

// A byte put at a slot's cell, and moved if the put fails.
fn store_slot(
    image: &mut [u8],
    lives: &mut [u32],
    p: Places,
    layout: Layout,
    slot: usize,
    byte: u8,
    mains: Mains,
) -> Result<Stored, PowerLost>
    requires { (fitted layout p (chip image.old lives.old) ≡ true) × (sound layout p (pointer_of (map_in layout p image.old)) ≡ true) × (slot < slots layout) }
    ensures { Works result (chip image.new lives.new) mains (store_slot layout p slot byte (chip image.old lives.old)) (chip image.old lives.old) }
{
    let at = pointer_of(Map::at(p.map).cells_for(layout, image), slot);
    let done = put_on(image, lives, at, byte, mains)?;
    if done.held {
        return Ok(Stored {
            work: Ok(()),
            writes: done.writes,
            tried: 0,
        });
    }
    let left = mains.behind(done.writes);
    let moved = move_slot(image, lives, p, layout, slot, byte, left)?;
    Ok(moved.behind(done.writes, 0))
}

// A count stored: copy 1, nibbles 0 to 7, then each copy behind it the same.
pub(crate) fn store_count(
    image: &mut [u8],
    lives: &mut [u32],
    p: Places,
    layout: Layout,
    count: u32,
    mains: Mains,
) -> Result<Stored, PowerLost>
    requires { (fitted layout p (chip image.old lives.old) ≡ true) × (sound layout p (pointer_of (map_in layout p image.old)) ≡ true) }
    ensures { Works result (chip image.new lives.new) mains (store layout p count (chip image.old lives.old)) (chip image.old lives.old) }
{
    let word = gray_of(count);
    let slots = 8 * layout.copies;
    let mut done = Stored {
        work: Ok(()),
        writes: 0,
        tried: 0,
    };
    for slot in 0..slots {
        let byte = code_of(nibble_of(word, slot % 8));
        let left = mains.behind(done.writes);
        let stored = store_slot(image, lives, p, layout, slot, byte, left)?;
        done = stored.behind(done.writes, done.tried);
        if stored.work.is_err() {
            return Ok(done);
        }
    }
    Ok(done)
}

// Two counts stored, one behind the other: the one that was read, and the next.
pub(crate) fn store_twice(
    image: &mut [u8],
    lives: &mut [u32],
    p: Places,
    layout: Layout,
    count: u32,
    mains: Mains,
) -> Result<Stored, PowerLost>
    requires { (fitted layout p (chip image.old lives.old) ≡ true) × (sound layout p (pointer_of (map_in layout p image.old)) ≡ true) × (count < last_count) }
    ensures { Works result (chip image.new lives.new) mains (store layout p count (chip image.old lives.old) and_then store layout p (count + 1)) (chip image.old lives.old) }
{
    let settled = store_count(image, lives, p, layout, count, mains)?;
    if settled.work.is_err() {
        return Ok(settled);
    }
    let left = mains.behind(settled.writes);
    let stepped = store_count(image, lives, p, layout, count + 1, left)?;
    Ok(stepped.behind(settled.writes, settled.tried))
}

// A byte moved behind work that took so many writes. The places come as numbers, so that the compiler lays them out for a move
// and not for what is usual.
fn move_behind(
    image: &mut [u8],
    lives: &mut [u32],
    m: usize,
    s: usize,
    e: usize,
    slot: usize,
    byte: u8,
    writes: usize,
) -> Stored
    requires { (fitted two (places m s e) (chip image.old lives.old) ≡ true) × (sound two (places m s e) (pointer_of (map_in two (places m s e) image.old)) ≡ true) × (slot < slots two) × (writes ≤ 2) }
    ensures { seen result.work result.writes result.tried (chip image.new lives.new) ≡ plus writes 0 (view (move_slot two (places m s e) slot byte (chip image.old lives.old))) }
{
    let p = Places {
        map: m,
        start: s,
        end: e,
    };
    let moved = move_slot(image, lives, p, TWO, slot, byte, Mains::steady()).unwrap();
    moved.behind(writes, 0)
}

// A byte put at a slot's cell, whose address is known, and moved if the put fails: behind work that took so many writes.
fn store_at(
    image: &mut [u8],
    lives: &mut [u32],
    p: Places,
    slot: usize,
    at: usize,
    byte: u8,
    writes: usize,
) -> Stored
    requires { (fitted two p (chip image.old lives.old) ≡ true) × (sound two p (pointer_of (map_in two p image.old)) ≡ true) × (slot < slots two) × (at ≡ pointer_of (map_in two p image.old) slot) × (writes ≤ 1) }
    ensures { seen result.work result.writes result.tried (chip image.new lives.new) ≡ plus writes 0 (view (store_slot two p slot byte (chip image.old lives.old))) }
{
    let done = put(image, lives, at, byte);
    let asked = writes + done.writes;
    if done.held {
        return Stored {
            work: Ok(()),
            writes: asked,
            tried: 0,
        };
    }
    move_behind(image, lives, p.map, p.start, p.end, slot, byte, asked)
}

// A count stored, unless all slots are known to hold its codes.
pub(crate) fn settle(
    image: &mut [u8],
    lives: &mut [u32],
    p: Places,
    count: u32,
    exact: bool,
) -> Stored
    requires { (fitted two p (chip image.old lives.old) ≡ true) × (sound two p (pointer_of (map_in two p image.old)) ≡ true) × (exact ≡ true → Holds two p count image.old) }
    ensures { seen result.work result.writes result.tried (chip image.new lives.new) ≡ view (store two p count (chip image.old lives.old)) }
{
    if exact {
        return Stored {
            work: Ok(()),
            writes: 0,
            tried: 0,
        };
    }
    store_count(image, lives, p, TWO, count, Mains::steady()).unwrap()
}

// The cells of a nibble, in copy 1 and in copy 2.
#[derive(Clone, Copy)]
struct Pair {
    one: usize,
    other: usize,
}

// Where the map says that a nibble's cells are.
fn cells_of(image: &[u8], p: Places, nibble: usize) -> Pair
    requires { (places_good two (length image.now) p ≡ true) × (nibble < 8) }
    ensures { (result.one ≡ pointer_of (map_in two p image.now) nibble) × (result.other ≡ pointer_of (map_in two p image.now) (8 + nibble)) }
{
    let map = Map::at(p.map).cells(image);
    Pair {
        one: pointer_of(map, nibble),
        other: pointer_of(map, 8 + nibble),
    }
}

// A byte stored in both slots of a nibble, copy 1 first. The map says once where: storing one leaves the pointer of the other.
fn store_pair(image: &mut [u8], lives: &mut [u32], p: Places, nibble: usize, byte: u8) -> Stored
    requires { (fitted two p (chip image.old lives.old) ≡ true) × (sound two p (pointer_of (map_in two p image.old)) ≡ true) × (nibble < 8) }
    ensures { seen result.work result.writes result.tried (chip image.new lives.new) ≡ view (store_slot two p nibble byte (chip image.old lives.old) and_then store_slot two p (8 + nibble) byte) }
{
    let cells = cells_of(image, p, nibble);
    let one = cells.one;
    let other = cells.other;
    let taken = put(image, lives, one, byte);
    if taken.held {
        return store_at(image, lives, p, 8 + nibble, other, byte, taken.writes);
    }
    let first = move_behind(
        image,
        lives,
        p.map,
        p.start,
        p.end,
        nibble,
        byte,
        taken.writes,
    );
    if first.work.is_err() {
        return first;
    }
    let second = store_at(image, lives, p, 8 + nibble, other, byte, 0);
    second.behind(first.writes, first.tried)
}

// The next count stored where all slots hold a count's codes: one nibble changes, in each copy.
pub(crate) fn store_next(image: &mut [u8], lives: &mut [u32], p: Places, count: u32) -> Stored
    requires { (fitted two p (chip image.old lives.old) ≡ true) × (sound two p (pointer_of (map_in two p image.old)) ≡ true) × (count < last_count) × (Holds two p count image.old) }
    ensures { seen result.work result.writes result.tried (chip image.new lives.new) ≡ view (store two p (count + 1) (chip image.old lives.old)) }
{
    let next = count + 1;
    let nibble = (changed_bit(next) / 4) as usize;
    let byte = code_of(nibble_of(gray_of(next), nibble));
    store_pair(image, lives, p, nibble, byte)
}
