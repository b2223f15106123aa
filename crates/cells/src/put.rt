// The one write of the project, and to put a byte (document 01, "The chip as lent").
ghost use Rattle.std.specs.Prelude.{◌≡◌, ◌<◌, length};
ghost use Rattle.cells.specs.Chip.{chip, write_at};
ghost use Rattle.cells.specs.Run.{seen, view};
ghost use Rattle.cells.specs.Put.{put_at};

// What a put came to: whether the byte is there, and the writes asked for.
#[derive(Clone, Copy)]
pub struct BytePut {
    pub held: bool,
    pub writes: usize,
}

// One write, which only a put makes, or the loss of power in one: a cell with life left stores the byte and loses one life, a worn cell stays as it is. The byte
// is stored last, so that the compiler knows what a reading back finds.
pub(crate) fn write(image: &mut [u8], lives: &mut [u32], at: usize, byte: u8)
    requires { (at < length image.old) × (length lives.old ≡ length image.old) }
    ensures { chip image.new lives.new ≡ write_at at byte (chip image.old lives.old) }
{
    let life = lives[at];
    if 0 < life {
        lives[at] = life - 1;
        image[at] = byte;
    }
}

// The byte is written unless the cell reads it already, and read back.
pub fn put(image: &mut [u8], lives: &mut [u32], at: usize, byte: u8) -> BytePut
    requires { (at < length image.old) × (length lives.old ≡ length image.old) }
    ensures { seen result.held result.writes 0 (chip image.new lives.new) ≡ view (put_at at byte (chip image.old lives.old)) }
{
    if image[at] == byte {
        return BytePut {
            held: true,
            writes: 0,
        };
    }
    write(image, lives, at, byte);
    BytePut {
        held: image[at] == byte,
        writes: 1,
    }
}
