// The doors for C, as include/lyre.h declares them: those of crate lyre under their names, each with the promise that it has there.
#![tactic(auto)]

ghost use Rattle.std.specs.Prelude.{◌≡◌, length};
ghost use Rattle.cells.specs.Chip.{chip};
ghost use Rattle.counter.specs.Layout.{two};
ghost use Rattle.counter.specs.Places.{places};
ghost use Rattle.counter.specs.Doors.{Opens, Steps, Reads, read_of as counted, map_part_of};
ghost use Rattle.counter.specs.Trials.{TrialOpens, TrialSteps};
ghost use Rattle.counter.specs.Verdict.{outcome as gives};
ghost use Rattle.counter.specs.Ends.{ends};
ghost use Rattle.intelhex.specs.Doors.{outcome, write_of, read_of};
ghost use Rattle.card.specs.Cards.{card as card_of};
ghost use Rattle.card.specs.Answers.{refused, answer_of};
ghost use Rattle.card.specs.Doors.{Told, outcome as wrote, write_of as write_card_of};
ghost use Rattle.dumps.specs.Tray.{outcome as filled, tray_of};
ghost use Rattle.room.specs.Room.{left_of, room_of};
ghost use Rattle.room.specs.Kept.{kept, kept_open_of, kept_step_of, kept_trial_open_of, kept_trial_step_of};
ghost use Rattle.lyre.specs.Plain.{answer_in, read_answer_in, part_in, kept_in, room_in, hex_in, card_answer_in};

use lyre::{Answer, Card, Hex, Kept, Part, ReadAnswer, Room, Text};

// Opens a chip.
#[unsafe(no_mangle)]
pub extern "C" fn lyre_open(
    image: &mut [u8],
    lives: &mut [u32],
    m: usize,
    s: usize,
    e: usize,
) -> Answer
    ensures { Opens (places m s e) (chip image.old lives.old) (answer_in result) (chip image.new lives.new) }
{
    lyre::lyre_open(image, lives, m, s, e)
}

// Reads the count, and which bits were mended.
#[unsafe(no_mangle)]
pub extern "C" fn lyre_read(image: &[u8], m: usize, s: usize, e: usize) -> ReadAnswer
    ensures { Reads (places m s e) image.now (read_answer_in result) }
{
    lyre::lyre_read(image, m, s, e)
}

// Steps the count by one.
#[unsafe(no_mangle)]
pub extern "C" fn lyre_step(
    image: &mut [u8],
    lives: &mut [u32],
    m: usize,
    s: usize,
    e: usize,
) -> Answer
    ensures { Steps (places m s e) (chip image.old lives.old) (answer_in result) (chip image.new lives.new) }
{
    lyre::lyre_step(image, lives, m, s, e)
}

// Says where in the image the map cells of a copy stand.
#[unsafe(no_mangle)]
pub extern "C" fn lyre_map_part(image: &[u8], m: usize, s: usize, e: usize, copy: u32) -> Part
    ensures { part_in result ≡ map_part_of two (places m s e) image.now copy }
{
    lyre::lyre_map_part(image, m, s, e, copy)
}

// Opens a chip, with power for so many writes.
#[unsafe(no_mangle)]
pub extern "C" fn lyre_trial_open(
    image: &mut [u8],
    lives: &mut [u32],
    m: usize,
    s: usize,
    e: usize,
    power: usize,
    torn: u8,
) -> Answer
    ensures { TrialOpens (places m s e) power torn (chip image.old lives.old) (answer_in result) (chip image.new lives.new) }
{
    lyre::lyre_trial_open(image, lives, m, s, e, power, torn)
}

// Steps the count by one, with power for so many writes.
#[unsafe(no_mangle)]
pub extern "C" fn lyre_trial_step(
    image: &mut [u8],
    lives: &mut [u32],
    m: usize,
    s: usize,
    e: usize,
    power: usize,
    torn: u8,
) -> Answer
    ensures { TrialSteps (places m s e) power torn (chip image.old lives.old) (answer_in result) (chip image.new lives.new) }
{
    lyre::lyre_trial_step(image, lives, m, s, e, power, torn)
}

// Reads every image of a tray into two rows.
#[unsafe(no_mangle)]
pub extern "C" fn lyre_tray(
    tray: &[u8],
    each: usize,
    m: usize,
    s: usize,
    e: usize,
    counts: &mut [u32],
    codes: &mut [u32],
) -> u32
    ensures { filled result counts.new codes.new ≡ tray_of (counted two (places m s e)) each tray.now counts.old codes.old }
{
    lyre::lyre_tray(tray, each, m, s, e, counts, codes)
}

// Opens a chip, and works out the ends of its map.
#[unsafe(no_mangle)]
pub extern "C" fn lyre_kept_open(
    image: &mut [u8],
    lives: &mut [u32],
    m: usize,
    s: usize,
    e: usize,
) -> Kept
    ensures { kept (gives (kept_in result).answer (chip image.new lives.new)) (kept_in result).ends ≡ kept_open_of two (places m s e) (chip image.old lives.old) }
{
    lyre::lyre_kept_open(image, lives, m, s, e)
}

// Steps the count by one, and keeps the ends of the map.
#[unsafe(no_mangle)]
pub extern "C" fn lyre_kept_step(
    image: &mut [u8],
    lives: &mut [u32],
    m: usize,
    s: usize,
    e: usize,
    high: u64,
    low: u64,
) -> Kept
    ensures { kept (gives (kept_in result).answer (chip image.new lives.new)) (kept_in result).ends ≡ kept_step_of two (places m s e) (ends high low) (chip image.old lives.old) }
{
    lyre::lyre_kept_step(image, lives, m, s, e, high, low)
}

// Opens a chip, with power for so many writes, and works out the ends of its map.
#[unsafe(no_mangle)]
pub extern "C" fn lyre_kept_trial_open(
    image: &mut [u8],
    lives: &mut [u32],
    m: usize,
    s: usize,
    e: usize,
    power: usize,
    torn: u8,
) -> Kept
    ensures { kept (gives (kept_in result).answer (chip image.new lives.new)) (kept_in result).ends ≡ kept_trial_open_of two (places m s e) power torn (chip image.old lives.old) }
{
    lyre::lyre_kept_trial_open(image, lives, m, s, e, power, torn)
}

// Steps the count by one, with power for so many writes, and keeps the ends of the map.
#[unsafe(no_mangle)]
pub extern "C" fn lyre_kept_trial_step(
    image: &mut [u8],
    lives: &mut [u32],
    m: usize,
    s: usize,
    e: usize,
    power: usize,
    torn: u8,
    high: u64,
    low: u64,
) -> Kept
    ensures { kept (gives (kept_in result).answer (chip image.new lives.new)) (kept_in result).ends ≡ kept_trial_step_of two (places m s e) power torn (ends high low) (chip image.old lives.old) }
{
    lyre::lyre_kept_trial_step(image, lives, m, s, e, power, torn, high, low)
}

// The room that two ends leave.
#[unsafe(no_mangle)]
pub extern "C" fn lyre_room_left(high: u64, low: u64) -> Room
    ensures { room_in result ≡ left_of (ends high low) }
{
    lyre::lyre_room_left(high, low)
}

// The room in an image, counted from its whole map.
#[unsafe(no_mangle)]
pub extern "C" fn lyre_room_of(image: &[u8], m: usize, s: usize, e: usize) -> Room
    ensures { room_in result ≡ room_of two (places m s e) image.now }
{
    lyre::lyre_room_of(image, m, s, e)
}

// Writes an image as Intel HEX.
#[unsafe(no_mangle)]
pub extern "C" fn lyre_hex_write(image: &[u8], text: &mut [u8]) -> Hex
    ensures { outcome (hex_in result) text.new ≡ write_of image.now text.old }
{
    lyre::lyre_hex_write(image, text)
}

// Reads Intel HEX into an image.
#[unsafe(no_mangle)]
pub extern "C" fn lyre_hex_read(text: &[u8], image: &mut [u8]) -> Hex
    ensures { outcome (hex_in result) image.new ≡ read_of text.now image.old }
{
    lyre::lyre_hex_read(text, image)
}

// What the card that a text shows answers at a count.
#[unsafe(no_mangle)]
pub extern "C" fn lyre_card_at(text: &[u8], count: u32) -> Card
    ensures { Told text.now (λ c. answer_of (length c.speeds) c count) (refused 5) (card_answer_in result) }
{
    lyre::lyre_card_at(text, count)
}

// Writes a card as its text.
#[unsafe(no_mangle)]
pub extern "C" fn lyre_card_write(
    fitted: u32,
    allowed: u32,
    speeds: &[u32],
    turns: &[u32],
    text: &mut [u8],
) -> Text
    ensures { wrote result.code result.length text.new ≡ write_card_of (length speeds.now) (card_of fitted allowed speeds.now turns.now) text.old }
{
    lyre::lyre_card_write(fitted, allowed, speeds, turns, text)
}
