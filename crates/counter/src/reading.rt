// Reading (document 01, "Reading" and the table of refusals): bytes become readings, readings words, words
// counts, and counts a verdict. A reading is at hand as its entry in the table of readings.
ghost use Rattle.std.specs.Prelude.{◌≡◌, ℕ, ◌+◌, ◌<◌, Bool, true, ◌&&◌, ◌||◌, length, ℤ, if◌then◌else◌, IfOk};
ghost use Rattle.code.specs.Codes.{code_of};
ghost use Rattle.code.specs.Nibbles.{nibble_of};
ghost use Rattle.code.specs.Readings.{is_lost, nibble_read};
ghost use Rattle.code.specs.Entries.{reading_at, twofold_at};
ghost use Rattle.counter.specs.Slots.{lowest};
ghost use Rattle.counter.specs.Reading.{data_at, count_in, decide, weigh, examine, verdict_of};
ghost use Rattle.counter.specs.Places.{length_good, places_good};
ghost use Rattle.counter.specs.Store.{slot_code};
ghost use Rattle.counter.specs.Inside.{listed, nibble_by, Answers, Reaches, verdict_in, ExactIf};
ghost use Rattle.counter.specs.Layout.{two, slots};

use super::map::{Map, pointer_of};
use super::places::Places;
use super::soundness::is_sound;
use super::standing::{Standing, standing_of};
use super::verdict::{Refusal, Verdict};
use code::gray::count_of;
use code::nibbles::word_of;
use code::reading::{is_lost, nibble_read, reading_at, twofold_at};
use code::table::{entries_of, lent};
use std::array;

// The byte at a slot's pointer.
fn byte_of(image: &[u8], map: &[u8; Map::SIZE], slot: usize) -> u8
    requires { (Reaches image.now map.now) × (slot < slots two) }
    ensures { result ≡ data_at image.now map.now slot }
{
    image[pointer_of(map, slot)]
}

// The bytes at all pointers.
pub(crate) fn data_of(image: &[u8], map: &[u8; Map::SIZE]) -> [u8; Map::SLOTS]
    requires { Reaches image.now map.now }
    ensures { (k : ℕ) → k < slots two → listed result k ≡ data_at image.now map.now k }
{
    array::from_fn(|slot| byte_of(image, map, slot))
}

// Whether one of two entries stands for a byte one bit from two codes.
fn one_twofold(a: u8, b: u8) -> bool
    ensures { result ≡ (twofold_at a || twofold_at b) }
{
    twofold_at(a) || twofold_at(b)
}

// Whether two entries are both lost.
fn both_lost(a: u8, b: u8) -> bool
    ensures { result ≡ (is_lost (reading_at a) && is_lost (reading_at b)) }
{
    is_lost(reading_at(a)) && is_lost(reading_at(b))
}

// The lowest nibble of whose entries, one in each copy, something holds.
fn lowest_amiss<F: Fn(u8, u8) -> bool>(is_amiss: F, entries: &[u8; Map::SLOTS]) -> Option<usize>
    requires { F.IsAlwaysCallable is_amiss }
    ensures { (test : ℕ → ℕ → Bool) → Answers (F.post is_amiss) test → result ≡ lowest 8 0 (λ n. test (listed entries.now n) (listed entries.now (8 + n))) }
{
    for n in 0..8 {
        if is_amiss(entries[n], entries[8 + n]) {
            return Some(n);
        }
    }
    None
}

// The nibble of one entry, or of the other copy's where it is lost.
fn nibble_of_two(own: u8, other: u8) -> u8
    ensures { result ≡ (if is_lost (reading_at own) then nibble_read (reading_at other) else nibble_read (reading_at own)) }
{
    if is_lost(reading_at(own)) {
        nibble_read(reading_at(other))
    } else {
        nibble_read(reading_at(own))
    }
}

// A nibble of a copy, counted from 0.
fn nibble_at(entries: &[u8; Map::SLOTS], copy: usize, n: usize) -> u8
    requires { (copy < 2) × (n < 8) }
    ensures { result ≡ nibble_by entries.now copy n }
{
    nibble_of_two(entries[8 * copy + n], entries[8 - 8 * copy + n])
}

// The nibbles of a copy, counted from 0.
fn nibbles_of(entries: &[u8; Map::SLOTS], copy: usize) -> [u8; 8]
    requires { copy < 2 }
    ensures { (n : ℕ) → n < 8 → listed result n ≡ nibble_by entries.now copy n }
{
    array::from_fn(|n| nibble_at(entries, copy, n))
}

// The count of a copy, counted from 0.
fn count_in(entries: &[u8; Map::SLOTS], copy: usize) -> u32
    requires { copy < 2 }
    ensures { result ≡ count_in two (λ k. reading_at (listed entries.now k)) copy }
{
    count_of(word_of(nibbles_of(entries, copy)))
}

// What the counts of the two copies decide: the lag is their exact difference.
fn decided(first: u32, second: u32) -> Verdict
    ensures { result ≡ decide first second }
{
    let lag = i64::from(first) - i64::from(second);
    if lag == 0 || lag == 1 {
        return Ok((first, lag));
    }
    Err(Refusal::Apart(lag))
}

// What the bytes of the slots come to.
fn weighed(data: &[u8; Map::SLOTS]) -> Verdict
    ensures { result ≡ weigh two (listed «data».now) }
{
    let entries = entries_of(data);
    if let Some(n) = lowest_amiss(one_twofold, &entries) {
        return Err(Refusal::TwoCodes(n));
    }
    if let Some(n) = lowest_amiss(both_lost, &entries) {
        return Err(Refusal::LostNibble(n));
    }
    decided(count_in(&entries, 0), count_in(&entries, 1))
}

// The Gray word of the bytes, if they are codes and the same in both copies. No turn asks whether they are: what is amiss is
// gathered, and seen at the end.
fn plain_word(image: &[u8], map: &[u8; Map::SIZE]) -> Option<u32>
    requires { Reaches image.now map.now }
    ensures { (word : ℕ) → result ≡ Some word → (n : ℕ) → n < 8 → (data_at image.now map.now n ≡ code_of (nibble_of word n)) × (data_at image.now map.now (8 + n) ≡ data_at image.now map.now n) }
{
    let table = lent();
    let mut word = 0u32;
    let mut apart = 0u8;
    let mut seen = 0u8;
    for n in 0..8 {
        let byte = byte_of(image, map, n);
        let entry = table[usize::from(byte)];
        apart |= byte ^ byte_of(image, map, 8 + n);
        seen |= entry;
        word |= u32::from(entry) << (4 * n);
    }
    (apart == 0 && seen < 16).then_some(word)
}

// A count that was read, its lag, and whether all slots are known to hold the count's codes.
#[derive(Clone, Copy)]
pub struct Count {
    pub count: u32,
    pub lag: i64,
    pub exact: bool,
}

// What the bytes of the slots come to: where both copies are the same codes, there is nothing to weigh.
fn found_in(image: &[u8], map: &[u8; Map::SIZE]) -> Result<Count, Refusal>
    requires { Reaches image.now map.now }
    ensures { (verdict_in result ≡ weigh two (data_at image.now map.now)) × IfOk result (λ found. found.exact ≡ true → (k : ℕ) → k < slots two → data_at image.now map.now k ≡ slot_code found.count k) }
{
    if let Some(word) = plain_word(image, map) {
        return Ok(Count {
            count: count_of(word),
            lag: 0,
            exact: true,
        });
    }
    let (count, lag) = weighed(&data_of(image, map))?;
    Ok(Count {
        count,
        lag,
        exact: false,
    })
}

// What a marked image with good settings reads as.
pub(crate) fn examined(image: &[u8], p: Places) -> Result<Count, Refusal>
    requires { (length_good two (length image.now) ≡ true) × (places_good two (length image.now) p ≡ true) }
    ensures { (verdict_in result ≡ examine two p image.now) × ExactIf two p result image.now }
{
    let map = Map::at(p.map).cells(image);
    if !is_sound(map, p) {
        return Err(Refusal::UnsoundMap);
    }
    found_in(image, map)
}

// What an image reads as, by the tests in the order of the table.
pub(crate) fn verdict_of(image: &[u8], p: Places) -> Result<Count, Refusal>
    ensures { (verdict_in result ≡ verdict_of two p image.now) × ExactIf two p result image.now }
{
    match standing_of(image, p) {
        Standing::Unfit(why) => Err(why),
        Standing::Unmarked => Err(Refusal::NoMark),
        Standing::Marked => examined(image, p),
    }
}
