// Chips with erased cells (document 02, P3): FF and 00 tell nothing, though each is one bit from a code. On setting A opened nibble
// 0 of the copies is in cells 128 and 125, and cell 122 is the next Low spare.
use super::chips::wear;
use super::lines::{say_mended, say_open, say_step};
use super::mended::{holding, say_holding};
use std::io::Print;

// 61 is the code of 3, which is the Gray word of 2.
fn erased_in_one_copy(output: &impl Print) {
    say_holding(output, "P3 FF 61, read", 0xFF, 0x61);
    say_holding(output, "P3 61 00, read", 0x61, 0x00);
}

fn erased_in_both(output: &impl Print) {
    say_holding(output, "P3 FF FF, read", 0xFF, 0xFF);
    say_holding(output, "P3 00 00, read", 0x00, 0x00);
}

// A step from 9, whose nibble has the code E6, to 10, whose nibble has 7F, was stopped in copy 1 and left FF there: the count is the
// old one, and an opening settles copy 1 on it.
fn stopped_step(output: &impl Print) {
    let chip = holding(0xFF, 0xE6);
    say_mended(output, "P3 FF E6, read", chip);
    say_open(output, "P3 FF E6, open", chip, &[128]);
}

// A cell that has failed and shows FF: a step from 2 to 3, whose nibble has the code 19, moves its nibble.
fn failed_cell(output: &impl Print) {
    let chip = wear(holding(0xFF, 0x61), 128);
    say_step(output, "P3 FF 61, cell 128 worn, step", chip, &[3, 122]);
}

pub(crate) fn cases(output: &impl Print) {
    erased_in_one_copy(output);
    erased_in_both(output);
    stopped_step(output);
    failed_cell(output);
}
