// The four doors (document 01, "Storing, opening, stepping" and "What comes back"; document 02, P1), and two of them without a part of
// what they give. None asks anything of its caller: every image, setting and life has its answer.
ghost use Rattle.std.specs.Prelude.{◌≡◌, ◌+◌, ◌<◌, true, length};
ghost use Rattle.cells.specs.Chip.{chip};
ghost use Rattle.cells.specs.Cut.{cut};
ghost use Rattle.counter.specs.Layout.{two};
ghost use Rattle.counter.specs.Map.{map_in, pointer_of, sound};
ghost use Rattle.counter.specs.Verdict.{ending, answer_of, outcome, outcome_of};
ghost use Rattle.counter.specs.Doors.{last_count, beginning, reopening, stepping, read_of, part_verdict, map_part_of, Opens, Steps, Reads, HandsBack};
ghost use Rattle.counter.specs.Trials.{cut_outcome};
ghost use Rattle.counter.specs.Inside.{fitted, standing_of, Holds, verdict_in, finish};

use super::layout::TWO;
use super::map::Map;
use super::mended::bits_of;
use super::opening::open_first;
use super::places::Places;
use super::reading::{Count, examined, verdict_of};
use super::soundness::map_sound;
use super::standing::{Standing, standing_of};
use super::store::{Stored, settle, store_next, store_twice};
use super::verdict::{Answer, Refusal, Verdict, answer_of, refusal_of};
use cells::mains::{Mains, PowerLost};

// What read answers: beside the answer, how many of the sixteen data cells were mended in each of the bits 0 to 7.
#[derive(Clone, Copy)]
pub struct ReadAnswer {
    pub answer: Answer,
    pub bits: [u32; 8],
}

// Which part of an image map part hands back, and its code, a number as in `map_part_of` of specs.
#[derive(Clone, Copy)]
pub struct Part {
    pub code: u32,
    pub start: usize,
    pub size: usize,
}

// The highest count of 32 bits.
pub(crate) const LAST_COUNT: u32 = 4294967295;

// The answer of a read that found this.
fn read_answer(found: Result<Count, Refusal>) -> Answer
    ensures { result ≡ answer_of (verdict_in found) 0 0 }
{
    match found {
        Ok(read) => answer_of(Ok((read.count, read.lag)), 0, 0),
        Err(why) => refusal_of(why, 0, 0),
    }
}

// Reads the count, and which bits were mended. It writes nothing.
pub fn read(image: &[u8], p: Places) -> ReadAnswer
    ensures { Reads p image.now result }
{
    let found = verdict_of(image, p);
    ReadAnswer {
        answer: read_answer(found),
        bits: bits_of(image, p, found),
    }
}

// What read answers, without the work of telling which bits were mended.
pub fn read_count(image: &[u8], p: Places) -> Answer
    ensures { result ≡ read_of two p image.now }
{
    read_answer(verdict_of(image, p))
}

// The answer of a call that ends so when its storing is done.
pub(crate) fn finished(verdict: Verdict, stored: Stored) -> Answer
    ensures { result ≡ answer_of (ending verdict stored.work) stored.writes stored.tried }
{
    answer_of(stored.work.and(verdict), stored.writes, stored.tried)
}

// The same where the power may have been lost in the storing.
pub(crate) fn finished_on(verdict: Verdict, stored: Result<Stored, PowerLost>) -> Answer
    ensures { result ≡ finish verdict stored }
{
    match stored {
        Ok(stored) => finished(verdict, stored),
        Err(lost) => refusal_of(Refusal::PowerLost(lost.at), 0, 0),
    }
}

// A first opening, whose count is 0.
pub(crate) fn begin(image: &mut [u8], lives: &mut [u32], p: Places, mains: Mains) -> Answer
    requires { fitted two p (chip image.old lives.old) ≡ true }
    ensures { outcome result (chip image.new lives.new) ≡ cut_outcome (cut mains.power mains.torn (beginning two p (chip image.old lives.old)) (chip image.old lives.old)) }
{
    finished_on(Ok((0, 0)), open_first(image, lives, p, TWO, mains))
}

// Reads the count of a marked image with good settings, and stores it anew, by the quick ways, which know no loss of power.
fn reopen(image: &mut [u8], lives: &mut [u32], p: Places) -> Answer
    requires { (length lives.old ≡ length image.old) × (standing_of two p image.old ≡ Standing.Marked) }
    ensures { outcome result (chip image.new lives.new) ≡ outcome_of (reopening two p (chip image.old lives.old)) }
{
    match examined(image, p) {
        Ok(read) => {
            let stored = settle(image, lives, p, read.count, read.exact);
            finished(Ok((read.count, read.lag)), stored)
        }
        Err(why) => refusal_of(why, 0, 0),
    }
}

// Opens a chip: one that is marked is read and stored anew, any other is opened from zero.
pub fn open(image: &mut [u8], lives: &mut [u32], p: Places) -> Answer
    ensures { Opens p (chip image.old lives.old) result (chip image.new lives.new) }
{
    if lives.len() != image.len() {
        return refusal_of(Refusal::BadLength, 0, 0);
    }
    match standing_of(image, p) {
        Standing::Unmarked => begin(image, lives, p, Mains::steady()),
        Standing::Unfit(why) => refusal_of(why, 0, 0),
        Standing::Marked => reopen(image, lives, p),
    }
}

// A step from what was read: where all slots hold the count's codes, the first of the two stores has nothing to do.
fn advance(image: &mut [u8], lives: &mut [u32], p: Places, read: Count) -> Answer
    requires { (fitted two p (chip image.old lives.old) ≡ true) × (sound two p (pointer_of (map_in two p image.old)) ≡ true) × (read.count < last_count) × (read.exact ≡ true → Holds two p read.count image.old) }
    ensures { outcome result (chip image.new lives.new) ≡ outcome_of (stepping two p read.count read.lag (chip image.old lives.old)) }
{
    let stored = if read.exact {
        store_next(image, lives, p, read.count)
    } else {
        store_twice(image, lives, p, TWO, read.count, Mains::steady()).unwrap()
    };
    finished(Ok((read.count + 1, read.lag)), stored)
}

// Steps the count by one.
pub fn step(image: &mut [u8], lives: &mut [u32], p: Places) -> Answer
    ensures { Steps p (chip image.old lives.old) result (chip image.new lives.new) }
{
    if lives.len() != image.len() {
        return refusal_of(Refusal::BadLength, 0, 0);
    }
    match verdict_of(image, p) {
        Ok(read) => {
            if read.count == LAST_COUNT {
                return refusal_of(Refusal::LastCount, 0, 0);
            }
            advance(image, lives, p, read)
        }
        Err(why) => refusal_of(why, 0, 0),
    }
}

// What map part finds in a marked image with good settings: refusals 4 and 16, or else count 0 and lag 0, as `part_verdict` of specs.
fn part_verdict(image: &[u8], p: Places, copy: usize) -> Verdict
    requires { standing_of two p image.now ≡ Standing.Marked }
    ensures { result ≡ part_verdict two p image.now copy }
{
    if !map_sound(image, p) {
        return Err(Refusal::UnsoundMap);
    }
    if copy < 1 {
        return Err(Refusal::BadCopy);
    }
    if 2 < copy {
        return Err(Refusal::BadCopy);
    }
    Ok((0, 0))
}

// What map part finds, by the tests in the order of the table.
fn part_found(image: &[u8], p: Places, copy: usize) -> Verdict
    ensures { result ≡ part_verdict two p image.now copy }
{
    match standing_of(image, p) {
        Standing::Unfit(why) => Err(why),
        Standing::Unmarked => Err(Refusal::NoMark),
        Standing::Marked => part_verdict(image, p, copy),
    }
}

// Map part's code, and where in the image the part starts and how long it is; on a refusal it is empty.
pub fn part_of(image: &[u8], p: Places, copy: u32) -> Part
    ensures { result ≡ map_part_of two p image.now copy }
{
    let number = copy as usize;
    match part_found(image, p, number) {
        Ok(_) => Part {
            code: 0,
            start: p.map + (Map::FIRST_COPY + Map::COPY_SIZE * (number - 1)),
            size: Map::COPY_SIZE,
        },
        Err(why) => Part {
            code: refusal_of(why, 0, 0).code,
            start: 0,
            size: 0,
        },
    }
}

// Hands back the eleven map cells of a copy, 1 or 2, as a part of the image itself, and sets the code, as `HandsBack` says.
pub fn map_part<'a>(image: &'a [u8], p: Places, copy: u32, code: &mut u32) -> &'a [u8]
    ensures { HandsBack (λ start. result.ref_ptr ≡ (image.entry.ref_ptr.0, start + image.entry.ref_ptr.1)) p image.now copy code.new result.now }
{
    let part = part_of(image, p, copy);
    *code = part.code;
    let start = part.start;
    let end = start + part.size;
    &image[start..end]
}
