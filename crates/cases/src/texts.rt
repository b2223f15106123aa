// The texts of the cases: Intel HEX written from a chip and read into a chip, cards written and read, and texts put together and
// damaged. A text goes by value, as a chip does. A tray of dumps is one too.
use super::chips::{Chip, LARGEST, MAP, START};
use card::{Card, Refusal, Wear};
use counter::places::Places;
use dumps::tray::NotATray;

// The signs of the longest text: no card has a longer one.
const LONGEST: usize = 1706;

// The images of the largest tray: no row has more entries.
const MOST_IMAGES: usize = 64;

// The signs from `length` on are not the text's: no door sees them. They are an array, as a chip's cells are: a text too is damaged in
// several ways, a copy each.
#[derive(Clone, Copy, PartialEq)]
pub struct Text {
    pub signs: [u8; LONGEST],
    pub length: usize,
}

impl Text {
    fn signs(&self) -> &[u8] {
        &self.signs[..self.length.min(LONGEST)]
    }
}

// What writing leaves: its answer, and the text.
#[derive(Clone, Copy)]
pub struct Written<A> {
    pub answer: A,
    pub text: Text,
}

// What reading leaves: its answer, and the chip as it is then.
#[derive(Clone, Copy)]
pub struct Taken {
    pub answer: Result<(), intelhex::Refusal>,
    pub chip: Chip,
}

// What a tray leaves: whether it is refused, and the rows.
#[derive(Clone, Copy)]
pub struct Entries {
    pub answer: Result<(), NotATray>,
    pub counts: [u32; MOST_IMAGES],
    pub codes: [u32; MOST_IMAGES],
}

// Writes a chip's image where there is room for so many signs.
pub(crate) fn write(chip: Chip, room: usize) -> Written<Result<usize, intelhex::Refusal>> {
    let mut signs = [0u8; LONGEST];
    let lent = room.min(LONGEST);
    let answer = intelhex::write_image(chip.cells(), &mut signs[..lent]);
    let length = answer.unwrap_or(0);
    Written {
        answer,
        text: Text { signs, length },
    }
}

// Reads a text into a chip's image.
pub(crate) fn read(text: Text, mut chip: Chip) -> Taken {
    let n = chip.size.min(LARGEST);
    let answer = intelhex::read_image(text.signs(), &mut chip.image[..n]);
    Taken { answer, chip }
}

// Writes a card where there is room for so many signs.
pub(crate) fn write_card(card: Card, room: usize) -> Written<Result<usize, Refusal>> {
    let mut signs = [0u8; LONGEST];
    let lent = room.min(LONGEST);
    let answer = card::write_card(card, &mut signs[..lent]);
    let length = answer.unwrap_or(0);
    Written {
        answer,
        text: Text { signs, length },
    }
}

// Reads a text as a card.
pub(crate) fn read_card(text: Text) -> Result<Card, Refusal> {
    card::read_card(text.signs())
}

// What a text answers at a count.
pub(crate) fn answer(text: Text, count: u32) -> Result<Wear, Refusal> {
    card::answer_of_text(text.signs(), count)
}

// Reads a tray into rows of so many entries, which are 9 before.
pub(crate) fn read_tray(
    tray: Text,
    each: usize,
    end: usize,
    counted: usize,
    coded: usize,
) -> Entries {
    let mut counts = [9u32; MOST_IMAGES];
    let mut codes = [9u32; MOST_IMAGES];
    let first = counted.min(MOST_IMAGES);
    let second = coded.min(MOST_IMAGES);
    let answer = dumps::tray::read_tray(
        tray.signs(),
        each,
        Places {
            map: MAP,
            start: START,
            end,
        },
        &mut counts[..first],
        &mut codes[..second],
    );
    Entries {
        answer,
        counts,
        codes,
    }
}

// A tray with a chip's image behind it.
pub(crate) fn lay(tray: Text, chip: Chip) -> Text {
    add(tray, chip.cells())
}

pub(crate) fn empty() -> Text {
    Text {
        signs: [0; LONGEST],
        length: 0,
    }
}

// A text with more behind it, if there is room.
pub(crate) fn add(mut text: Text, more: &[u8]) -> Text {
    let length = text.length.min(LONGEST);
    if LONGEST - length < more.len() {
        return text;
    }
    text.length = text::write_bytes(more, &mut text.signs, length);
    text
}

// A text with another sign at an index.
pub(crate) fn change(mut text: Text, at: usize, sign: u8) -> Text {
    if at < LONGEST {
        text.signs[at] = sign;
    }
    text
}

// A text with another end.
pub(crate) fn end_at(mut text: Text, length: usize) -> Text {
    text.length = length;
    text
}
