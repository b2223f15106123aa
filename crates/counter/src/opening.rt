// A first opening (document 01, "Storing, opening, stepping"): all addresses are taken, then all pointers put,
// then the mark. For any layout of up to three copies, and on mains that can be lost (document 02, P6).
ghost use Rattle.std.specs.Prelude.{◌≡◌, ◌+◌, ◌≤◌, true, length};
ghost use Rattle.cells.specs.Chip.{chip};
ghost use Rattle.counter.specs.Layout.{slots, map_cells};
ghost use Rattle.counter.specs.Verdict.{◌and_then◌};
ghost use Rattle.counter.specs.Opening.{put_mark, first_opening};
ghost use Rattle.counter.specs.Inside.{fitted, map_row, Offers, Takes, Works};

use super::layout::Layout;
use super::map::{Kind, Map};
use super::places::Places;
use super::spares::Gap;
use super::store::{Stored, mapped};
use super::verdict::Refusal;
use cells::mains::{Mains, PowerLost, put_on};
use cells::row::put_row;
use code::codes::code_of;

// The bytes that hold the addresses taken as pointers, for how many slots they are, and the writes asked for.
#[derive(Clone, Copy)]
pub struct Takings {
    pub bytes: [u8; 33],
    pub count: usize,
    pub writes: usize,
}

// The next address of a kind that a gap leaves, if there is one, and the gap without it: `Gap`'s `spares`, `next` and `narrowed` in one,
// since by these one after another a first opening takes a sixth more instructions than it may.
fn next_spare(kind: Kind, gap: Gap) -> Option<(usize, Gap)>
    requires { (gap.high ≤ 256) × (gap.high ≤ gap.low) }
    ensures { Offers kind gap result }
{
    let Gap { high, low } = gap;
    if high == low {
        return None;
    }
    match kind {
        Kind::Low => {
            let at = low - 1;
            Some((at, Gap { high, low: at }))
        }
        Kind::High => {
            if high == 256 {
                return None;
            }
            let left = Gap {
                high: high + 1,
                low,
            };
            Some((high, left))
        }
    }
}

// 80 put for every slot, each at the next address of its kind that holds it, up to the first slot for which no cell is
// left. An address that does not hold it is passed over, as if it were taken. `end` is where the next slot's pointer goes.
// A slot that found no cell goes round again, which a `for` over the slots could not.
fn take_addresses(
    image: &mut [u8],
    lives: &mut [u32],
    p: Places,
    layout: Layout,
    mains: Mains,
) -> Result<Takings, PowerLost>
    requires { (fitted layout p (chip image.old lives.old) ≡ true) × (layout.copies ≤ 3) }
    ensures { Takes layout p result (chip image.new lives.new) mains (chip image.old lives.old) }
{
    let slots = 8 * layout.copies;
    let mut bytes = [0u8; 33];
    let mut end = 0;
    let mut gap = Gap::whole(p);
    let mut writes = 0;
    let mut slot = 0;
    while slot < slots {
        let kind = Kind::of(slot);
        let Some((at, left)) = next_spare(kind, gap) else {
            break;
        };
        gap = left;
        let done = put_on(image, lives, at, code_of(0), mains.behind(writes))?;
        writes += done.writes;
        if done.held {
            bytes[end] = (at % 256) as u8;
            end += 1;
            if let Kind::Low = kind {
                bytes[end] = (at / 256) as u8;
                end += 1;
            }
            slot += 1;
        }
    }
    Ok(Takings {
        bytes,
        count: slot,
        writes,
    })
}

// The mark, A5 and then 5A.
fn put_mark(
    image: &mut [u8],
    lives: &mut [u32],
    p: Places,
    layout: Layout,
    mains: Mains,
) -> Result<Stored, PowerLost>
    requires { fitted layout p (chip image.old lives.old) ≡ true }
    ensures { Works result (chip image.new lives.new) mains (put_mark layout p (chip image.old lives.old)) (chip image.old lives.old) }
{
    let mark = [Map::MARK_FIRST, Map::MARK_SECOND];
    let row = put_row(image, lives, p.map, &mark, mains)?;
    Ok(mapped(row))
}

// The map: the bytes of all pointers, as one row, and then the mark.
fn put_map(
    image: &mut [u8],
    lives: &mut [u32],
    p: Places,
    layout: Layout,
    bytes: &[u8],
    mains: Mains,
) -> Result<Stored, PowerLost>
    requires { (fitted layout p (chip image.old lives.old) ≡ true) × (2 + length bytes.now ≡ map_cells layout) }
    ensures { Works result (chip image.new lives.new) mains (map_row bytes.now (p.map + 2) (chip image.old lives.old) and_then put_mark layout p) (chip image.old lives.old) }
{
    let row = put_row(image, lives, p.map + Map::FIRST_COPY, bytes, mains)?;
    let pointers = mapped(row);
    if pointers.work.is_err() {
        return Ok(pointers);
    }
    let left = mains.behind(pointers.writes);
    let marked = put_mark(image, lives, p, layout, left)?;
    Ok(marked.behind(pointers.writes, pointers.tried))
}

// All of it, up to what stops it.
pub(crate) fn open_first(
    image: &mut [u8],
    lives: &mut [u32],
    p: Places,
    layout: Layout,
    mains: Mains,
) -> Result<Stored, PowerLost>
    requires { (fitted layout p (chip image.old lives.old) ≡ true) × (layout.copies ≤ 3) }
    ensures { Works result (chip image.new lives.new) mains (first_opening layout p (chip image.old lives.old)) (chip image.old lives.old) }
{
    let takings = take_addresses(image, lives, p, layout, mains)?;
    let count = takings.count;
    if count < 8 * layout.copies {
        return Ok(Stored {
            work: Err(Refusal::NoSpare(count)),
            writes: takings.writes,
            tried: 0,
        });
    }
    let bytes = takings.bytes;
    let end = Map::COPY_SIZE * layout.copies;
    let left = mains.behind(takings.writes);
    let mapped = put_map(image, lives, p, layout, &bytes[..end], left)?;
    Ok(mapped.behind(takings.writes, 0))
}
