// Reads of chips with mended cells (document 02, P1). On setting A opened all data cells hold 80, the code of 0: cells 128 to 126
// and 25 to 29 those of copy 1, nibbles 0 to 7, and 125 to 123 and 30 to 34 those of copy 2.
use super::bench::{END_A, SIZE_A, near_the_end};
use super::chips::{Chip, opened, set, set_both};
use super::lines::say_mended;
use std::io::Print;

fn setting_a() -> Chip {
    opened(SIZE_A, END_A)
}

// With other bytes in the two cells of nibble 0.
pub(crate) fn holding(first: u8, second: u8) -> Chip {
    set(set(setting_a(), 128, first), 125, second)
}

pub(crate) fn say_holding(output: &impl Print, name: &str, first: u8, second: u8) {
    say_mended(output, name, holding(first, second));
}

// 81 is the code of 0 with bit 0 wrong, and 06, 0F and 87 are that of 1 with bits 0, 3 and 7 wrong.
fn one_nibble(output: &impl Print) {
    say_holding(output, "P1 80, read", 0x80, 0x80);
    say_holding(output, "P1 81, read", 0x81, 0x80);
    say_holding(output, "P1 06 06, read", 0x06, 0x06);
    say_holding(output, "P1 06 0F, read", 0x06, 0x0F);
    say_holding(output, "P1 87 87, read", 0x87, 0x87);
}

// A cell counts once, though its nibble is lent to the other copy, where it is lost.
fn lent_nibble(output: &impl Print) {
    say_holding(output, "P1 81 01, read", 0x81, 0x01);
    say_holding(output, "P1 01 81, read", 0x01, 0x81);
}

// A step that was stopped, with copy 1 at 5 and copy 2 at 4, has counts. Those of a refusal are zeros: of 6, with the copies the
// other way, of 5, where another nibble is lost, and of 3, where the mark is gone.
fn lags_and_refusals(output: &impl Print) {
    let stopped = holding(0xCA, 0xB1);
    say_mended(output, "P1 CA B1, read", stopped);
    say_holding(output, "P1 B1 CA, read", 0xB1, 0xCA);
    let lost = set_both(stopped, 29, 34, 0x01);
    say_mended(output, "P1 CA B1, nibble 7 lost, read", lost);
    say_mended(output, "P1 CA B1, mark gone, read", set(stopped, 1, 0xFF));
}

// Nibble i of copy 1 wrong in bit i. Near the end nibbles 0 and 7 are 1 and 8, of whose codes 06 and B4 have a bit wrong; 80 with bit
// 7 wrong would be 00, which is lost.
fn each_bit(output: &impl Print) {
    let chip = set(set(near_the_end(), 128, 0x06), 127, 0x82);
    let chip = set(set(chip, 126, 0x84), 25, 0x88);
    let chip = set(set(chip, 26, 0x90), 27, 0xA0);
    let chip = set(set(chip, 28, 0xC0), 29, 0xB4);
    say_mended(output, "P1 each bit, read", chip);
}

// All sixteen cells wrong in bit 6.
fn each_cell(output: &impl Print) {
    let chip = set_both(set_both(setting_a(), 128, 125, 0xC0), 127, 124, 0xC0);
    let chip = set_both(set_both(chip, 126, 123, 0xC0), 25, 30, 0xC0);
    let chip = set_both(set_both(chip, 26, 31, 0xC0), 27, 32, 0xC0);
    let chip = set_both(set_both(chip, 28, 33, 0xC0), 29, 34, 0xC0);
    say_mended(output, "P1 all C0, read", chip);
}

pub(crate) fn cases(output: &impl Print) {
    one_nibble(output);
    lent_nibble(output);
    lags_and_refusals(output);
    each_bit(output);
    each_cell(output);
}
