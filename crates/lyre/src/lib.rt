// The doors for C, as include/lyre.h declares them. Each hands its arguments to a door of the counter, of intelhex, of card, of dumps or of
// room, and promises what that door promises.
#![tactic(auto)]

ghost use Rattle.std.specs.Prelude.{◌≡◌, ℕ, List, length};
ghost use Rattle.cells.specs.Chip.{chip};
ghost use Rattle.counter.specs.Layout.{two};
ghost use Rattle.counter.specs.Places.{places};
ghost use Rattle.counter.specs.Doors.{Opens, Steps, Reads, read_of as counted, map_part_of};
ghost use Rattle.counter.specs.Trials.{TrialOpens, TrialSteps};
ghost use Rattle.counter.specs.Verdict.{outcome as gives};
ghost use Rattle.counter.specs.Ends.{ends};
ghost use Rattle.intelhex.specs.Doors.{outcome, write_of, read_of};
ghost use Rattle.card.specs.Cards.{card as card_of};
ghost use Rattle.card.specs.Answers.{refused, answered, answer_of};
ghost use Rattle.card.specs.Doors.{Told, outcome as wrote, left_by, write_of as write_card_of};
ghost use Rattle.dumps.specs.Tray.{outcome as filled, tray_of};
ghost use Rattle.room.specs.Room.{left_of, room_of};
ghost use Rattle.room.specs.Kept.{kept, kept_open_of, kept_step_of, kept_trial_open_of, kept_trial_step_of};
ghost use Rattle.lyre.specs.Plain.{answer_in, read_answer_in, part_in, kept_in, room_in, hex_in, card_answer_in};

use cells::mains::Mains;
use counter::places::Places;

// lyre_answer.
#[repr(C)]
#[derive(Clone, Copy)]
pub struct Answer {
    pub code: u32,
    pub count: u32,
    pub lag: i64,
    pub place: u64,
    pub writes: u64,
    pub tried: u64,
}

// lyre_read_answer.
#[repr(C)]
#[derive(Clone, Copy)]
pub struct ReadAnswer {
    pub code: u32,
    pub count: u32,
    pub lag: i64,
    pub place: u64,
    pub writes: u64,
    pub tried: u64,
    pub bit: [u32; 8],
}

// lyre_part.
#[repr(C)]
#[derive(Clone, Copy)]
pub struct Part {
    pub code: u32,
    pub start: u64,
    pub length: u64,
}

// lyre_kept.
#[repr(C)]
#[derive(Clone, Copy)]
pub struct Kept {
    pub code: u32,
    pub count: u32,
    pub lag: i64,
    pub place: u64,
    pub writes: u64,
    pub tried: u64,
    pub high: u64,
    pub low: u64,
}

// lyre_room.
#[repr(C)]
#[derive(Clone, Copy)]
pub struct Room {
    pub high: u64,
    pub low: u64,
}

// lyre_hex.
#[repr(C)]
#[derive(Clone, Copy)]
pub struct Hex {
    pub code: u32,
    pub line: u64,
    pub length: u64,
}

// lyre_card.
#[repr(C)]
#[derive(Clone, Copy)]
pub struct Card {
    pub code: u32,
    pub used: u32,
    pub left: i64,
    pub time: u64,
}

// lyre_text.
#[repr(C)]
#[derive(Clone, Copy)]
pub struct Text {
    pub code: u32,
    pub length: u64,
}

// What C is told where a tray is refused.
const TRAY_REFUSED: u32 = 12;

// The counter's answer, laid out for C.
impl From<counter::verdict::Answer> for Answer {
    ghost from_gives = { λ answer laid. answer_in laid ≡ answer };

    fn from(answer: counter::verdict::Answer) -> Answer {
        Answer {
            code: answer.code,
            count: answer.count,
            lag: answer.lag,
            place: answer.place as u64,
            writes: answer.writes as u64,
            tried: answer.tried as u64,
        }
    }
}

// What a read answers, laid out for C.
impl From<counter::doors::ReadAnswer> for ReadAnswer {
    ghost from_gives = { λ read laid. read_answer_in laid ≡ read };

    fn from(read: counter::doors::ReadAnswer) -> ReadAnswer {
        let bit = read.bits;
        let says = Answer::from(read.answer);
        ReadAnswer {
            code: says.code,
            count: says.count,
            lag: says.lag,
            place: says.place,
            writes: says.writes,
            tried: says.tried,
            bit,
        }
    }
}

// Where a part of the map stands, laid out for C.
impl From<counter::doors::Part> for Part {
    ghost from_gives = { λ part laid. part_in laid ≡ part };

    fn from(part: counter::doors::Part) -> Part {
        Part {
            code: part.code,
            start: part.start as u64,
            length: part.size as u64,
        }
    }
}

// What a kept door gave, laid out for C.
impl From<room::kept::Kept> for Kept {
    ghost from_gives = { λ given laid. kept_in laid ≡ given };

    fn from(given: room::kept::Kept) -> Kept {
        let ends = given.ends;
        let says = Answer::from(given.answer);
        Kept {
            code: says.code,
            count: says.count,
            lag: says.lag,
            place: says.place,
            writes: says.writes,
            tried: says.tried,
            high: ends.highest as u64,
            low: ends.lowest as u64,
        }
    }
}

// The room, laid out for C.
impl From<room::left::Room> for Room {
    ghost from_gives = { λ left laid. room_in laid ≡ left };

    fn from(left: room::left::Room) -> Room {
        Room {
            high: left.high as u64,
            low: left.low as u64,
        }
    }
}

// The answer of Intel HEX, laid out for C.
impl From<intelhex::Answer> for Hex {
    ghost from_gives = { λ answer laid. hex_in laid ≡ answer };

    fn from(answer: intelhex::Answer) -> Hex {
        Hex {
            code: answer.code,
            line: answer.line as u64,
            length: answer.length as u64,
        }
    }
}

// What a card answers, laid out for C: a refusal has zeros besides.
impl From<Result<card::Wear, card::Refusal>> for Card {
    ghost from_gives = { λ answer laid. card_answer_in laid ≡ answered answer };

    fn from(answer: Result<card::Wear, card::Refusal>) -> Card {
        match answer {
            Ok(wear) => Card {
                code: 0,
                used: wear.used,
                left: wear.left,
                time: wear.time,
            },
            Err(refusal) => Card {
                code: refusal.into(),
                used: 0,
                left: 0,
                time: 0,
            },
        }
    }
}

// How long the text of a card is that was written, laid out for C.
impl From<Result<usize, card::Refusal>> for Text {
    ghost from_gives = { λ written laid. (after : List ℕ) → wrote laid.code laid.length after ≡ left_by written after };

    fn from(written: Result<usize, card::Refusal>) -> Text {
        match written {
            Ok(length) => Text {
                code: 0,
                length: length as u64,
            },
            Err(refusal) => Text {
                code: refusal.into(),
                length: 0,
            },
        }
    }
}

// The place settings, which C passes as three numbers.
fn settings(m: usize, s: usize, e: usize) -> Places
    ensures { result ≡ places m s e }
{
    Places {
        map: m,
        start: s,
        end: e,
    }
}

// Opens a chip.
pub fn lyre_open(image: &mut [u8], lives: &mut [u32], m: usize, s: usize, e: usize) -> Answer
    ensures { Opens (places m s e) (chip image.old lives.old) (answer_in result) (chip image.new lives.new) }
{
    counter::doors::open(image, lives, settings(m, s, e)).into()
}

// Reads the count, and which bits were mended.
pub fn lyre_read(image: &[u8], m: usize, s: usize, e: usize) -> ReadAnswer
    ensures { Reads (places m s e) image.now (read_answer_in result) }
{
    counter::doors::read(image, settings(m, s, e)).into()
}

// Steps the count by one.
pub fn lyre_step(image: &mut [u8], lives: &mut [u32], m: usize, s: usize, e: usize) -> Answer
    ensures { Steps (places m s e) (chip image.old lives.old) (answer_in result) (chip image.new lives.new) }
{
    counter::doors::step(image, lives, settings(m, s, e)).into()
}

// Says where in the image the map cells of a copy stand.
pub fn lyre_map_part(image: &[u8], m: usize, s: usize, e: usize, copy: u32) -> Part
    ensures { part_in result ≡ map_part_of two (places m s e) image.now copy }
{
    counter::doors::part_of(image, settings(m, s, e), copy).into()
}

// Opens a chip, with power for so many writes.
pub fn lyre_trial_open(
    image: &mut [u8],
    lives: &mut [u32],
    m: usize,
    s: usize,
    e: usize,
    power: usize,
    torn: u8,
) -> Answer
    ensures { TrialOpens (places m s e) power torn (chip image.old lives.old) (answer_in result) (chip image.new lives.new) }
{
    counter::trials::trial_open(image, lives, settings(m, s, e), Mains { power, torn }).into()
}

// Steps the count by one, with power for so many writes.
pub fn lyre_trial_step(
    image: &mut [u8],
    lives: &mut [u32],
    m: usize,
    s: usize,
    e: usize,
    power: usize,
    torn: u8,
) -> Answer
    ensures { TrialSteps (places m s e) power torn (chip image.old lives.old) (answer_in result) (chip image.new lives.new) }
{
    counter::trials::trial_step(image, lives, settings(m, s, e), Mains { power, torn }).into()
}

// Reads every image of a tray into two rows.
pub fn lyre_tray(
    tray: &[u8],
    each: usize,
    m: usize,
    s: usize,
    e: usize,
    counts: &mut [u32],
    codes: &mut [u32],
) -> u32
    ensures { filled result counts.new codes.new ≡ tray_of (counted two (places m s e)) each tray.now counts.old codes.old }
{
    match dumps::tray::read_tray(tray, each, settings(m, s, e), counts, codes) {
        Ok(()) => 0,
        Err(_) => TRAY_REFUSED,
    }
}

// The ends that C passes as two numbers. A function, not a `From`: both types of that would be other crates' types.
fn ends_in(high: u64, low: u64) -> counter::ends::Ends
    ensures { result ≡ ends high low }
{
    counter::ends::Ends {
        highest: high as usize,
        lowest: low as usize,
    }
}

// Opens a chip, and works out the ends of its map.
pub fn lyre_kept_open(image: &mut [u8], lives: &mut [u32], m: usize, s: usize, e: usize) -> Kept
    ensures { kept (gives (kept_in result).answer (chip image.new lives.new)) (kept_in result).ends ≡ kept_open_of two (places m s e) (chip image.old lives.old) }
{
    room::kept::kept_open(image, lives, settings(m, s, e)).into()
}

// Steps the count by one, and keeps the ends of the map.
pub fn lyre_kept_step(
    image: &mut [u8],
    lives: &mut [u32],
    m: usize,
    s: usize,
    e: usize,
    high: u64,
    low: u64,
) -> Kept
    ensures { kept (gives (kept_in result).answer (chip image.new lives.new)) (kept_in result).ends ≡ kept_step_of two (places m s e) (ends high low) (chip image.old lives.old) }
{
    room::kept::kept_step(image, lives, settings(m, s, e), ends_in(high, low)).into()
}

// Opens a chip, with power for so many writes, and works out the ends of its map.
pub fn lyre_kept_trial_open(
    image: &mut [u8],
    lives: &mut [u32],
    m: usize,
    s: usize,
    e: usize,
    power: usize,
    torn: u8,
) -> Kept
    ensures { kept (gives (kept_in result).answer (chip image.new lives.new)) (kept_in result).ends ≡ kept_trial_open_of two (places m s e) power torn (chip image.old lives.old) }
{
    room::kept::kept_trial_open(image, lives, settings(m, s, e), Mains { power, torn }).into()
}

// Steps the count by one, with power for so many writes, and keeps the ends of the map.
pub fn lyre_kept_trial_step(
    image: &mut [u8],
    lives: &mut [u32],
    m: usize,
    s: usize,
    e: usize,
    power: usize,
    torn: u8,
    high: u64,
    low: u64,
) -> Kept
    ensures { kept (gives (kept_in result).answer (chip image.new lives.new)) (kept_in result).ends ≡ kept_trial_step_of two (places m s e) power torn (ends high low) (chip image.old lives.old) }
{
    room::kept::kept_trial_step(
        image,
        lives,
        settings(m, s, e),
        Mains { power, torn },
        ends_in(high, low),
    )
    .into()
}

// The room that two ends leave.
pub fn lyre_room_left(high: u64, low: u64) -> Room
    ensures { room_in result ≡ left_of (ends high low) }
{
    room::left::room_left(ends_in(high, low)).into()
}

// The room in an image, counted from its whole map.
pub fn lyre_room_of(image: &[u8], m: usize, s: usize, e: usize) -> Room
    ensures { room_in result ≡ room_of two (places m s e) image.now }
{
    room::left::room_of(image, settings(m, s, e)).into()
}

// Writes an image as Intel HEX.
pub fn lyre_hex_write(image: &[u8], text: &mut [u8]) -> Hex
    ensures { outcome (hex_in result) text.new ≡ write_of image.now text.old }
{
    intelhex::Answer::from(intelhex::write_image(image, text)).into()
}

// Reads Intel HEX into an image.
pub fn lyre_hex_read(text: &[u8], image: &mut [u8]) -> Hex
    ensures { outcome (hex_in result) image.new ≡ read_of text.now image.old }
{
    intelhex::Answer::from(intelhex::read_image(text, image)).into()
}

// What the card that a text shows answers at a count.
pub fn lyre_card_at(text: &[u8], count: u32) -> Card
    ensures { Told text.now (λ c. answer_of (length c.speeds) c count) (refused 5) (card_answer_in result) }
{
    card::answer_of_text(text, count).into()
}

// Writes a card as its text.
pub fn lyre_card_write(
    fitted: u32,
    allowed: u32,
    speeds: &[u32],
    turns: &[u32],
    text: &mut [u8],
) -> Text
    ensures { wrote result.code result.length text.new ≡ write_card_of (length speeds.now) (card_of fitted allowed speeds.now turns.now) text.old }
{
    card::write_rows(fitted, allowed, speeds, turns, text).into()
}
