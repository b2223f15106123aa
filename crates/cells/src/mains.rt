// Mains that can be lost in a write (document 02, P6).
ghost use Rattle.std.specs.Prelude.{◌≡◌, ◌-◌, ◌^◌, ◌≤◌, ◌<◌, length};
ghost use Rattle.cells.specs.Chip.{chip};
ghost use Rattle.cells.specs.Put.{put_at};
ghost use Rattle.cells.specs.Cut.{Says, sight, put_shows};

use crate::put::{BytePut, put, write};

// Power for so many writes, and the byte that the write behind them leaves.
#[derive(Clone, Copy)]
pub struct Mains {
    pub power: usize,
    pub torn: u8,
}

impl Mains {
    // Power for more writes than any call asks for.
    pub fn steady() -> Mains
        ensures { (result.power ≡ 1048576) × (result.torn ≡ 0) }
    {
        Mains {
            power: 1048576,
            torn: 0,
        }
    }

    // The power that so many writes leave.
    pub fn behind(self, writes: usize) -> Mains
        requires { writes ≤ self.power }
        ensures { (result.power ≡ self.power - writes) × (result.torn ≡ self.torn) × (self.power < 2 ^ 64) }
    {
        Mains {
            power: self.power - writes,
            torn: self.torn,
        }
    }
}

// The power was lost in the write to an address.
#[derive(Clone, Copy)]
pub struct PowerLost {
    pub at: usize,
}

// A put whose write is torn where no power is left for it.
pub fn put_on(
    image: &mut [u8],
    lives: &mut [u32],
    at: usize,
    byte: u8,
    mains: Mains,
) -> Result<BytePut, PowerLost>
    requires { (at < length image.old) × (length lives.old ≡ length image.old) }
    ensures { Says (sight put_shows result (chip image.new lives.new)) mains.power mains.torn (put_at at byte (chip image.old lives.old)) (chip image.old lives.old) }
{
    if mains.power == 0 {
        if image[at] != byte {
            write(image, lives, at, mains.torn);
            return Err(PowerLost { at });
        }
    }
    Ok(put(image, lives, at, byte))
}
