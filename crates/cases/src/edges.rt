// Cases that are easy to get wrong, each from the sentence of document 01 that its comment gives in short.
// On setting A opened, nibble 0 of the copies is in cells 128 and 125, nibble 7 in cells 29 and 34, and cell 122 is the
// next Low spare.
use super::bench::{END_A, SIZE_A, near_the_end};
use super::chips::{MAP, START, blank, opened, set, set_both, wear};
use super::lines::{say_blank, say_open, say_read, say_step};
use std::io::Print;

// The smallest chip, whose area is 25 to 40.
const SIZE_SMALL: usize = 41;

const END_SMALL: usize = 40;

// An area that ends six cells above 255, so that the next Low spare is 255 and its pointer's two bytes both change.
const END_CROSSING: usize = 261;

// "Open, both mark bytes right": with one of them a chip is opened from zero, and the byte that is right is not written.
fn only_the_first_mark_byte(output: &impl Print) {
    let chip = set(blank(SIZE_A, MAP, START, END_A), 1, 0xA5);
    say_open(output, "blank but for A5, open", chip, &[]);
}

// The same on a chip at count 1, on which all that a first opening puts is there but nibble 0's two codes and 5A.
fn without_the_second_mark_byte(output: &impl Print) {
    let at_one = set_both(opened(SIZE_A, END_A), 128, 125, 0x07);
    let chip = set(at_one, 2, 0xFF);
    say_read(output, "5A gone, read", chip);
    say_open(output, "5A gone, open", chip, &[]);
}

// "Rewriting comes before moving": a mended cell takes its code in one write, and the pointer stays.
fn mended_cell(output: &impl Print) {
    let chip = set(opened(SIZE_A, END_A), 128, 0x81);
    say_open(output, "cell 128 mended, open", chip, &[3, 128]);
}

// "Step: read c, store c, then store c + 1": copy 2 is brought from 4 to 5 by one write, then both to 6, whose nibble 0 is
// the code 52.
fn lagging_step(output: &impl Print) {
    let chip = set(opened(SIZE_A, END_A), 128, 0xCB);
    let chip = set(chip, 125, 0xB3);
    say_step(output, "lag 1, step", chip, &[128, 125]);
}

// Copy 1 at 4294967295 and copy 2 one behind: refusal 7 has lag 0, and an opening settles copy 2 by one write.
fn lag_at_the_last_count(output: &impl Print) {
    let chip = set(near_the_end(), 128, 0x80);
    say_read(output, "lag 1 at the last count, read", chip);
    let chip = say_step(output, "lag 1 at the last count, step", chip, &[]);
    say_open(output, "lag 1 at the last count, open", chip, &[]);
}

// "Comparing counts by wrapping subtraction": copy 1 at 0 and copy 2 at 4294967295.
fn wrapping_lag(output: &impl Print) {
    let chip = set(opened(SIZE_A, END_A), 34, 0x34);
    say_read(output, "0 and the last count, read", chip);
}

// "Skipping those that fail": 128 and 122 do not take the code, 121 does; then the pointer's low byte and copy 2.
fn spare_below_a_failed_spare(output: &impl Print) {
    let chip = wear(wear(opened(SIZE_A, END_A), 128), 122);
    say_step(output, "cells 128 and 122 worn, step", chip, &[3]);
}

// "A map byte's put fails", the low one: the call ends there, and the spare keeps its byte.
fn low_byte_fails(output: &impl Print) {
    let chip = wear(wear(opened(SIZE_A, END_A), 128), 3);
    say_step(output, "cells 128 and 3 worn, step", chip, &[3, 122]);
}

// "A cell that already reads it is not written": on a blank chip a pointer byte of FF is there, one in each of these areas.
fn pointer_bytes_of_ff(output: &impl Print) {
    say_blank(output, "E 255, open", 512, 1, 25, 255);
    say_blank(output, "E 256, open", 512, 1, 25, 256);
    say_blank(output, "E 511, open", 512, 1, 25, 511);
}

// "Sums are whole-number sums": this map place and 24 come to 2 to the power of 64, plus 1.
fn place_near_the_top(output: &impl Print) {
    say_blank(
        output,
        "M 18446744073709551593, open",
        129,
        18446744073709551593,
        25,
        128,
    );
}

// A map byte's put fails, the high one: the low one is already FF, and the pointer now names 511, past the area.
fn high_byte_fails(output: &impl Print) {
    let chip = wear(wear(opened(512, END_CROSSING), 261), 4);
    let chip = say_step(output, "cells 261 and 4 worn, step", chip, &[3, 4]);
    say_read(output, "cells 261 and 4 worn, read", chip);
}

// "Only the addresses that it has taken so far": the Low ones go down to 34, so that the last High one has no room.
fn starved_high(output: &impl Print) {
    let chip = wear(blank(SIZE_SMALL, MAP, START, END_SMALL), 40);
    say_open(output, "cell 40 worn, open", chip, &[]);
}

// "As written so far": copy 1 was stepped when copy 2 found no spare, so the refused step counted.
fn refused_step_that_counted(output: &impl Print) {
    let chip = wear(opened(SIZE_SMALL, END_SMALL), 37);
    let chip = say_step(output, "cell 37 worn, step", chip, &[]);
    say_read(output, "cell 37 worn, read", chip);
}

fn on_setting_a(output: &impl Print) {
    only_the_first_mark_byte(output);
    without_the_second_mark_byte(output);
    mended_cell(output);
    lagging_step(output);
    lag_at_the_last_count(output);
    wrapping_lag(output);
    spare_below_a_failed_spare(output);
    low_byte_fails(output);
}

pub(crate) fn cases(output: &impl Print) {
    on_setting_a(output);
    pointer_bytes_of_ff(output);
    place_near_the_top(output);
    high_byte_fails(output);
    starved_high(output);
    refused_step_that_counted(output);
}
