// Bench cases 14 to 17 (document 01, "Measured on the bench").
use super::chips::{Chip, MAP, START, blank, opened, set_both, wear};
use super::lines::{say_blank, say_open, say_read, say_step};
use counter::places::Places;
use std::io::Print;

// Setting A's cells, and its end of the area.
pub const SIZE_A: usize = 129;

pub const END_A: usize = Places::SETTING_A.end;

// Cells 127 and 124 hold nibble 1 of the two copies. Going from 15 to 16 the word goes from 8 to 18 hex, and nibble 1
// from the code 80 to 07; before that only nibble 0 changes.
fn one_step(output: &impl Print, chip: Chip) -> Chip {
    say_step(output, "14 step", chip, &[127, 124])
}

fn sixteen_steps(output: &impl Print, mut chip: Chip) {
    for _ in 0..16usize {
        chip = one_step(output, chip);
    }
}

// A first opening writes sixteen codes, 22 pointer bytes and the mark: 40.
fn case_14(output: &impl Print) {
    let chip = blank(SIZE_A, MAP, START, END_A);
    sixteen_steps(output, say_open(output, "14 open", chip, &[]));
}

// The write that cell 128 does not take, the spare's, the pointer's low byte and copy 2's: 4.
fn case_15(output: &impl Print) {
    let chip = wear(opened(SIZE_A, END_A), 128);
    say_step(output, "15 cell 128 worn, step", chip, &[3]);
}

fn case_16_sizes(output: &impl Print) {
    say_blank(output, "16 N 40, open", 40, 1, 25, 39);
    say_blank(output, "16 N 41, open", 41, 1, 25, 40);
    say_blank(output, "16 area of 15, open", 41, 1, 25, 39);
}

// In the smallest area from 246 the last High cell is 255, whose pointer is already there on a blank chip: 39 writes.
fn case_16_starts(output: &impl Print) {
    say_blank(output, "16 S 246, open", 262, 1, 246, 261);
    say_blank(output, "16 S 247, open", 263, 1, 247, 262);
}

// Setting A opened and brought to 4294967294, whose word is 80000001 hex: nibble 0 is 1, in cells 128 and 125, and
// nibble 7 is 8, in cells 29 and 34.
pub(crate) fn near_the_end() -> Chip {
    let chip = set_both(opened(SIZE_A, END_A), 128, 125, 0x07);
    set_both(chip, 29, 34, 0x34)
}

// The step turns nibble 0 of the word from 1 to 0, in each copy.
fn case_17(output: &impl Print) {
    let chip = near_the_end();
    say_read(output, "17 read", chip);
    let chip = say_step(output, "17 step", chip, &[]);
    say_step(output, "17 the next step", chip, &[]);
}

pub(crate) fn cases(output: &impl Print) {
    case_14(output);
    case_15(output);
    case_16_sizes(output);
    case_16_starts(output);
    case_17(output);
}
