// The chips of the cases: made blank, opened, set and worn, and what the doors make of them. A chip goes by value, which
// costs the check of a case far less than lent cells and lives do.
use card::{Card, ChipAnswer};
use cells::mains::Mains;
use counter::doors::ReadAnswer;
use counter::places::Places;
use counter::verdict::Answer;
use counter::{doors, trials};

// The cells of the largest chip.
pub const LARGEST: usize = 512;

const BLANK: u8 = 0xFF;

const AMPLE: u32 = 1000;

pub const MAP: usize = Places::SETTING_A.map;

pub const START: usize = Places::SETTING_A.start;

// A chip and its setting. The cells and lives above `size` are not the chip's: no door sees them. They are arrays and no `Vec`s, so
// that a case can set and call one chip in several ways: each copy would need the allocator, and could fail.
#[derive(Clone, Copy)]
pub struct Chip {
    pub image: [u8; LARGEST],
    pub lives: [u32; LARGEST],
    pub size: usize,
    pub places: Places,
}

impl Chip {
    pub(crate) fn cells(&self) -> &[u8] {
        &self.image[..self.size.min(LARGEST)]
    }
}

// What a door leaves: its answer, and the chip as it is then.
#[derive(Clone, Copy)]
pub struct Done {
    pub answer: Answer,
    pub chip: Chip,
}

pub(crate) fn blank(size: usize, map: usize, start: usize, end: usize) -> Chip {
    Chip {
        image: [BLANK; LARGEST],
        lives: [AMPLE; LARGEST],
        size,
        places: Places { map, start, end },
    }
}

pub(crate) fn set(mut chip: Chip, at: usize, byte: u8) -> Chip {
    if at < LARGEST {
        chip.image[at] = byte;
    }
    chip
}

// Sets a nibble's cells in the two copies.
pub(crate) fn set_both(chip: Chip, first: usize, second: usize, byte: u8) -> Chip {
    set(set(chip, first, byte), second, byte)
}

pub(crate) fn wear(mut chip: Chip, at: usize) -> Chip {
    if at < LARGEST {
        chip.lives[at] = 0;
    }
    chip
}

// Hands a chip's cells, lives and setting to a door.
fn call<F: FnOnce(&mut [u8], &mut [u32], Places) -> Answer>(mut chip: Chip, door: F) -> Done
    requires { F.IsAlwaysCallable door }
{
    let n = chip.size.min(LARGEST);
    let answer = door(&mut chip.image[..n], &mut chip.lives[..n], chip.places);
    Done { answer, chip }
}

pub(crate) fn open(chip: Chip) -> Done {
    call(chip, |image, lives, p| doors::open(image, lives, p))
}

pub(crate) fn step(chip: Chip) -> Done {
    call(chip, |image, lives, p| doors::step(image, lives, p))
}

// An open with power for so many writes; the one after them leaves the torn byte.
pub(crate) fn trial_open(chip: Chip, power: usize, torn: u8) -> Done {
    let mains = Mains { power, torn };
    call(
        chip,
        |image, lives, p| trials::trial_open(image, lives, p, mains),
    )
}

// A step of that kind.
pub(crate) fn trial_step(chip: Chip, power: usize, torn: u8) -> Done {
    let mains = Mains { power, torn };
    call(
        chip,
        |image, lives, p| trials::trial_step(image, lives, p, mains),
    )
}

pub(crate) fn read(chip: Chip) -> ReadAnswer {
    doors::read(chip.cells(), chip.places)
}

// What a card answers at a chip's count.
pub(crate) fn answer_of(card: Card, chip: Chip) -> ChipAnswer {
    card::answer_of_chip(card, chip.cells(), chip.places)
}

// A blank chip opened, with the map's place and the area's first cell of every case that does not say another.
pub(crate) fn opened(size: usize, end: usize) -> Chip {
    let done = open(blank(size, MAP, START, end));
    done.chip
}

// A cell's byte, or 0 where there is none.
pub(crate) fn cell(chip: Chip, at: usize) -> u8 {
    chip.image.get(at).copied().unwrap_or(0)
}

// Whether two chips have the same cells.
pub(crate) fn is_alike(one: Chip, other: Chip) -> bool {
    one.image == other.image
}
