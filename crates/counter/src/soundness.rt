// Whether the pointers of a map are sound (document 01, "The map").
ghost use Rattle.std.specs.Prelude.{◌≡◌, ℕ, ◌+◌, ◌-◌, ◌*◌, ◌/◌, ◌%◌, ◌^◌, ◌<◌, ◌≤◌, true, not, length, ◌==◌, bit_or, count_ones};
ghost use Rattle.counter.specs.Layout.{two, slots, map_cells};
ghost use Rattle.counter.specs.Slots.{kind_of, every};
ghost use Rattle.counter.specs.Map.{map_in, pointer_of, sound};
ghost use Rattle.counter.specs.Spares.{gap_to, may_try};
ghost use Rattle.counter.specs.Inside.{Among, Differ, listed, standing_of};

use super::map::{Kind, Map, pointer_of, pointers_of};
use super::places::Places;
use super::spares::Gap;
use super::standing::Standing;

// A number at most every Low pointer, or 0 where one is past the area's end.
fn low_border(map: &[u8; Map::SIZE], p: Places) -> usize
    ensures { 0 < result → (n : ℕ) → n < 3 → (result ≤ pointer_of map.now n) × (pointer_of map.now n ≤ p.end) × (result ≤ pointer_of map.now (8 + n)) × (pointer_of map.now (8 + n) ≤ p.end) }
{
    let mut border = 65535;
    let mut last = 0;
    for n in 0..3 {
        let a = pointer_of(map, n);
        let b = pointer_of(map, 8 + n);
        border = border.min(a).min(b);
        last = last.max(a).max(b);
    }
    if p.end < last { 0 } else { border }
}

// Whether a number is from a start up to a border: the distance of one below the start wraps, and is past any border.
fn is_between(a: usize, start: usize, border: usize) -> bool
    requires { start ≤ border }
    ensures { result ≡ true → (start ≤ a) × (a < border) }
{
    a.wrapping_sub(start) < border - start
}

// Whether every High pointer is in the area and below a border. One is a byte, so that it is at most 255. Two tests
// cost less than one of both.
fn highs_below(map: &[u8; Map::SIZE], p: Places, border: usize) -> bool
    ensures { result ≡ true → (n : ℕ) → 3 ≤ n → n < 8 → (p.start ≤ pointer_of map.now n) × (pointer_of map.now n < border) × (pointer_of map.now n < 256) × (p.start ≤ pointer_of map.now (8 + n)) × (pointer_of map.now (8 + n) < border) × (pointer_of map.now (8 + n) < 256) }
{
    if border < p.start {
        return false;
    }
    for n in 3..8 {
        if !is_between(pointer_of(map, n), p.start, border) {
            return false;
        }
        if !is_between(pointer_of(map, 8 + n), p.start, border) {
            return false;
        }
    }
    true
}

// Whether each pointer could be tried after those before it: then all are in the area, High ones at most
// 255, and every High one below every Low one.
fn in_order(map: &[u8; Map::SIZE], p: Places) -> bool
    requires { p.end < 4096 }
    ensures { result ≡ every (slots two) (λ k. may_try p (kind_of k) (gap_to k p (pointer_of map.now)) (pointer_of map.now k)) }
{
    let mut gap = Gap::whole(p);
    for slot in 0..Map::SLOTS {
        let kind = Kind::of(slot);
        let a = pointer_of(map, slot);
        if !gap.may_try(p, kind, a) {
            return false;
        }
        gap = gap.narrowed(kind, a);
    }
    true
}

// A word of bits with the bit of an address set: the address modulo 64, moved on by `skew` for each 64 cells below it.
fn with_bit(bits: u64, a: usize, skew: usize) -> u64
    requires { (a < 65536) × (skew ≤ 1) }
    ensures { result ≡ bit_or bits (2 ^ ((a + skew * (a / 64)) % 64)) }
{
    bits | (1u64 << ((a + skew * (a / 64)) % 64))
}

// The bits of the pointers of the nibbles from one up to another, in both copies: as many as there are pointers only
// if no two have the same bit.
fn bits_of(map: &[u8; Map::SIZE], from: usize, to: usize, skew: usize) -> u64
    requires { (from ≤ to) × (to ≤ 8) × (skew ≤ 1) }
    ensures { (count_ones result ≤ 2 * (to - from)) × (count_ones result ≡ 2 * (to - from) → Differ (Among from to) (λ k. (pointer_of map.now k + skew * (pointer_of map.now k / 64)) % 64)) }
{
    let mut bits = 0u64;
    for n in from..to {
        bits = with_bit(bits, pointer_of(map, n), skew);
        bits = with_bit(bits, pointer_of(map, 8 + n), skew);
    }
    bits
}

// Whether no two pointers of one kind have the same bit: where they are in order, the quick way to see that all differ.
fn spread(map: &[u8; Map::SIZE], skew: usize) -> bool
    requires { skew ≤ 1 }
    ensures { result ≡ true → (Differ (Among 0 3) (pointer_of map.now)) × (Differ (Among 3 8) (pointer_of map.now)) }
{
    let low = bits_of(map, 0, 3, skew).count_ones();
    let high = bits_of(map, 3, 8, skew).count_ones();
    low + high == 16
}

// Whether a slot's pointer is none of those before it. By `any`, since the compiler unrolls it: with `contains` a read of a chip that needs
// this takes half as many instructions again.
fn is_new(pointers: &[usize; Map::SLOTS], slot: usize) -> bool
    requires { slot < slots two }
    ensures { result ≡ every slot (λ i. not (listed pointers.now i == listed pointers.now slot)) }
{
    let a = pointers[slot];
    !pointers[..slot].iter().any(|earlier| *earlier == a)
}

// Whether all pointers are different, each compared with those before it.
fn all_differ(map: &[u8; Map::SIZE]) -> bool
    ensures { result ≡ every (slots two) (λ j. every j (λ i. not (pointer_of map.now i == pointer_of map.now j))) }
{
    let pointers = pointers_of(map);
    for slot in 0..Map::SLOTS {
        if !is_new(&pointers, slot) {
            return false;
        }
    }
    true
}

// Whether the pointers are sound, by looking at each clause that is not known to hold. Pointers that are the same modulo
// 64 have different bits, as a rule, where each 64 cells move the bits on by one. It has two callers, so that the compiler
// keeps it apart from what is usual.
pub(crate) fn plainly_sound(map: &[u8; Map::SIZE], p: Places, ordered: bool) -> bool
    requires { (p.end < 4096) × (ordered ≡ true → every (slots two) (λ k. may_try p (kind_of k) (gap_to k p (pointer_of map.now)) (pointer_of map.now k)) ≡ true) }
    ensures { result ≡ sound two p (pointer_of map.now) }
{
    let tries = ordered || in_order(map, p);
    tries && (spread(map, 1) || all_differ(map))
}

// Whether the map in a marked image with good settings is sound.
pub(crate) fn map_sound(image: &[u8], p: Places) -> bool
    requires { standing_of two p image.now ≡ Standing.Marked }
    ensures { result ≡ sound two p (pointer_of (map_in two p image.now)) }
{
    plainly_sound(Map::at(p.map).cells(image), p, false)
}

// Whether the pointers are sound. As a rule a border between Low and High pointers shows their order, and a word of bits
// for each kind that they differ.
pub(crate) fn is_sound(map: &[u8; Map::SIZE], p: Places) -> bool
    requires { p.end < 4096 }
    ensures { result ≡ sound two p (pointer_of map.now) }
{
    let border = low_border(map, p);
    let ordered = highs_below(map, p, border);
    if ordered && spread(map, 0) {
        return true;
    }
    plainly_sound(map, p, ordered)
}
