// The stylus card (document 02, P4): written as its one text, read from a text, and what it answers at a count.
#![tactic(auto)]

mod answering;
mod held;
mod reading;
mod runs;
mod writing;

ghost use Rattle.std.specs.Prelude.{◌≡◌, length};
ghost use Rattle.card.specs.Cards.{card as of_rows};
ghost use Rattle.counter.specs.Layout.{two};
ghost use Rattle.counter.specs.Doors.{read_of as counted};
ghost use Rattle.card.specs.Refusals.{number};
ghost use Rattle.card.specs.Answers.{refused, answered, answered_chip, answer_of, chip_answer_of};
ghost use Rattle.card.specs.Doors.{card_in, left_by, write_of, unread, card_read, read_of, Told};
ghost use Rattle.card.specs.Inside.{empty};

use counter::places::Places;
use held::Held;
use reading::read_whole;
use runs::within_limits;

// A card, by value. Of the 64 places those before `runs` have a run: the speed, 33 or 45, that it was cut at, and its turns. Two rows, and
// no row of runs, since C lends two, and `card_in` and `laid_out` of specs speak of two.
#[derive(Clone, Copy)]
pub struct Card {
    pub fitted: u32,
    pub allowed: u32,
    pub runs: usize,
    pub speeds: [u32; 64],
    pub turns: [u32; 64],
}

// Why a card or its text is refused.
#[derive(Clone, Copy, Debug, PartialEq, Eq)]
pub enum Refusal {
    // The turns that are allowed are fewer than 1, or more than 1000000.
    AllowanceOutOfRange,
    // The count is below the one when it was fitted.
    CountBelowFitted,
    // The runs do not add up to the turns used.
    RunsApart,
    // There are more than 64 runs.
    TooManyRuns,
    // The text or the card is not in form.
    NotInForm,
    // The room for the text is too short.
    RoomTooShort,
}

// The number that C and people are told.
impl From<Refusal> for u32 {
    ghost from_gives = { λ refusal n. n ≡ number refusal };

    fn from(refusal: Refusal) -> u32 {
        match refusal {
            Refusal::AllowanceOutOfRange => 1,
            Refusal::CountBelowFitted => 2,
            Refusal::RunsApart => 3,
            Refusal::TooManyRuns => 4,
            Refusal::NotInForm => 5,
            Refusal::RoomTooShort => 6,
        }
    }
}

// What a card answers at a count: turns used and turns left, and the cutting time in fifteenths of a second.
#[derive(Clone, Copy)]
pub struct Wear {
    pub used: u32,
    pub left: i64,
    pub time: u64,
}

// The same at the count of a chip, with the code of its read, a number as the counter answers it. Where that is not 0 there is no count,
// and the wear is zeros, unless the card itself is refused.
#[derive(Clone, Copy)]
pub struct ChipAnswer {
    pub read: u32,
    pub answer: Result<Wear, Refusal>,
}

// Writes a card as its text at the start of a lent one, and answers how long that is.
pub fn write_card(card: Card, text: &mut [u8]) -> Result<usize, Refusal>
    ensures { left_by result text.new ≡ write_of card.runs (card_in card) text.old }
{
    card.held().write(text)
}

// Writes a card whose runs stand in two lent rows.
pub fn write_rows(
    fitted: u32,
    allowed: u32,
    speeds: &[u32],
    turns: &[u32],
    text: &mut [u8],
) -> Result<usize, Refusal>
    ensures { left_by result text.new ≡ write_of (length speeds.now) (of_rows fitted allowed speeds.now turns.now) text.old }
{
    let held = Held {
        fitted,
        allowed,
        runs: speeds.len(),
        speeds,
        turns,
    };
    held.write(text)
}

// What a card answers at a count.
pub fn answer_at(card: Card, count: u32) -> Result<Wear, Refusal>
    ensures { answered result ≡ answer_of card.runs (card_in card) count }
{
    card.held().answer(count)
}

// A card with no runs.
const EMPTY: Card = Card {
    fitted: 0,
    allowed: 0,
    runs: 0,
    speeds: [0; 64],
    turns: [0; 64],
};

// Reads a text as a card.
pub fn read_card(text: &[u8]) -> Result<Card, Refusal>
    ensures { Told text.now read_of (unread 5) (card_read result) }
{
    let mut card = EMPTY;
    let Some(()) = read_whole(text, &mut card) else {
        return Err(Refusal::NotInForm);
    };
    within_limits(card.allowed, card.runs)?;
    Ok(card)
}

// What the card that a text shows answers at a count.
pub fn answer_of_text(text: &[u8], count: u32) -> Result<Wear, Refusal>
    ensures { Told text.now (λ c. answer_of (length c.speeds) c count) (refused 5) (answered result) }
{
    let mut card = EMPTY;
    match read_whole(text, &mut card) {
        Some(()) => card.held().answer(count),
        None => Err(Refusal::NotInForm),
    }
}

// What a card answers at the count of a chip.
pub fn answer_of_chip(card: Card, image: &[u8], p: Places) -> ChipAnswer
    ensures { answered_chip result ≡ chip_answer_of card.runs (card_in card) (counted two p image.now) }
{
    let found = counter::doors::read_count(image, p);
    if found.code != 0 {
        return ChipAnswer {
            read: found.code,
            answer: card.held().unworn(),
        };
    }
    ChipAnswer {
        read: 0,
        answer: answer_at(card, found.count),
    }
}
