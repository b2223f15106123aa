// Rows of cells: one byte tried along a row until a cell holds it, and bytes put at neighbouring cells.
ghost use Rattle.std.specs.Prelude.{◌≡◌, ◌+◌, ◌^◌, ◌≤◌, length};
ghost use Rattle.cells.specs.Chip.{chip};
ghost use Rattle.cells.specs.Row.{RowFits, nth, walk, put_row};
ghost use Rattle.cells.specs.Cut.{Says, sight, walk_shows, row_shows};

use crate::mains::{Mains, PowerLost, put_on};

// Which way a row goes.
#[derive(Clone, Copy)]
pub enum Way {
    Up,
    Down,
}

// What a walk came to: where the byte held, if it did, the writes asked for, and the cells tried.
#[derive(Clone, Copy)]
pub struct Walked {
    pub found: Option<usize>,
    pub writes: usize,
    pub tried: usize,
}

// What putting a row came to: where a put failed, if one did, and the writes asked for.
#[derive(Clone, Copy)]
pub struct RowPut {
    pub failed: Option<usize>,
    pub writes: usize,
}

// The address of the j-th cell of a row.
fn nth(way: Way, from: usize, j: usize) -> usize
    requires { RowFits (2 ^ 64) way from (j + 1) }
    ensures { result ≡ nth way from j }
{
    match way {
        Way::Up => from + j,
        Way::Down => from - j,
    }
}

// One cell after another is tried until one holds the byte. Each cell passed over was asked one write.
pub fn walk(
    image: &mut [u8],
    lives: &mut [u32],
    cells: usize,
    way: Way,
    from: usize,
    byte: u8,
    mains: Mains,
) -> Result<Walked, PowerLost>
    requires { (RowFits (length image.old) way from cells) × (length lives.old ≡ length image.old) }
    ensures { Says (sight walk_shows result (chip image.new lives.new)) mains.power mains.torn (walk cells way from byte (chip image.old lives.old)) (chip image.old lives.old) }
{
    for j in 0..cells {
        let at = nth(way, from, j);
        let done = put_on(image, lives, at, byte, mains.behind(j))?;
        if done.held {
            return Ok(Walked {
                found: Some(at),
                writes: j + done.writes,
                tried: j + 1,
            });
        }
    }
    Ok(Walked {
        found: None,
        writes: cells,
        tried: cells,
    })
}

// Each byte is put in its cell, up to the first put that fails.
pub fn put_row(
    image: &mut [u8],
    lives: &mut [u32],
    at: usize,
    bytes: &[u8],
    mains: Mains,
) -> Result<RowPut, PowerLost>
    requires { (at + length bytes.now ≤ length image.old) × (length lives.old ≡ length image.old) }
    ensures { Says (sight row_shows result (chip image.new lives.new)) mains.power mains.torn (put_row bytes.now at (chip image.old lives.old)) (chip image.old lives.old) }
{
    let mut writes = 0;
    for (i, byte) in bytes.iter().enumerate() {
        let done = put_on(image, lives, at + i, *byte, mains.behind(writes))?;
        writes += done.writes;
        if !done.held {
            return Ok(RowPut {
                failed: Some(at + i),
                writes,
            });
        }
    }
    Ok(RowPut {
        failed: None,
        writes,
    })
}
