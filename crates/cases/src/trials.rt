// Calls that lose their power in a write (document 02, P6). On setting A opened nibble 0 of the copies is in cells 128 and 125; a step
// from 0 to 1 writes 07 in the first, then in the second, where 80 was.
use super::bench::{END_A, SIZE_A};
use super::chips::{Chip, MAP, START, blank, opened, set, wear};
use super::lines::{say_cut_open, say_cut_step, say_open, say_read};
use std::io::Print;

fn blank_a() -> Chip {
    blank(SIZE_A, MAP, START, END_A)
}

fn opened_a() -> Chip {
    opened(SIZE_A, END_A)
}

// An open of a blank chip with power for so many writes, with the cell that the next one tears.
fn cut_open(output: &impl Print, power: usize, torn: u8, at: usize) -> Chip {
    say_cut_open(
        output,
        format_args!("P6 power {power} torn {torn:02X}, open"),
        blank_a(),
        power,
        torn,
        &[at],
    )
}

// What that leaves: a read of it, and an open.
fn opened_after(output: &impl Print, power: usize, torn: u8, at: usize) {
    let chip = cut_open(output, power, torn, at);
    say_read(
        output,
        format_args!("P6 power {power} torn {torn:02X}, open, read"),
        chip,
    );
    say_open(
        output,
        format_args!("P6 power {power} torn {torn:02X}, open, open"),
        chip,
        &[],
    );
}

// The first address, and the second byte of the first pointer, whose cell keeps FF. There is no mark yet, and the next open answers 0.
fn cut_addresses_and_pointers(output: &impl Print) {
    opened_after(output, 0, 0x00, 128);
    opened_after(output, 17, 0xFF, 4);
}

// The last byte of all, that of the mark: where the torn byte is right by chance, the chip is opened.
fn cut_marks(output: &impl Print) {
    opened_after(output, 39, 0x00, 2);
    opened_after(output, 39, 0x5A, 2);
    cut_open(output, 40, 0x00, 2);
}

// A step of an opened chip, with the cell that is torn.
fn cut_step(output: &impl Print, power: usize, torn: u8, at: usize) -> Chip {
    say_cut_step(
        output,
        format_args!("P6 power {power} torn {torn:02X}, step"),
        opened_a(),
        power,
        torn,
        &[at],
    )
}

// What that leaves: a read of it, and an open, with the cell as that leaves it.
fn stepped_after(output: &impl Print, power: usize, torn: u8, at: usize) {
    let chip = cut_step(output, power, torn, at);
    say_read(
        output,
        format_args!("P6 power {power} torn {torn:02X}, step, read"),
        chip,
    );
    say_open(
        output,
        format_args!("P6 power {power} torn {torn:02X}, step, open"),
        chip,
        &[at],
    );
}

// The first write is torn: 01 is lost and 81 is the old nibble, which leave the old count; 06 is the new nibble, which leaves the next
// count with lag 1; and CB is another, which is refused.
fn first_write_torn(output: &impl Print) {
    stepped_after(output, 0, 0x01, 128);
    stepped_after(output, 0, 0x81, 128);
    stepped_after(output, 0, 0x06, 128);
    stepped_after(output, 0, 0xCB, 128);
}

// The second write is torn, and copy 1 has counted: what is lost and the new nibble leave the next count with lag 0, the old nibble
// leaves it with lag 1, and another is refused. With power for two writes it is a step.
fn second_write_torn(output: &impl Print) {
    stepped_after(output, 1, 0xFF, 125);
    stepped_after(output, 1, 0x07, 125);
    stepped_after(output, 1, 0x80, 125);
    stepped_after(output, 1, 0xCB, 125);
    cut_step(output, 2, 0xCB, 125);
}

// Cell 128 is worn. A torn write changes nothing there; the spare 122 is no pointer's yet; and a torn pointer leaves the map
// unsound.
fn cut_moves(output: &impl Print) {
    let chip = wear(opened_a(), 128);
    say_cut_step(
        output,
        "P6 128 worn, power 0 torn 07, step",
        chip,
        0,
        0x07,
        &[128],
    );
    let spare = say_cut_step(
        output,
        "P6 128 worn, power 1 torn CB, step",
        chip,
        1,
        0xCB,
        &[122],
    );
    say_read(output, "P6 128 worn, power 1 torn CB, step, read", spare);
    let pointer = say_cut_step(
        output,
        "P6 128 worn, power 2 torn FF, step",
        chip,
        2,
        0xFF,
        &[3],
    );
    say_read(output, "P6 128 worn, power 2 torn FF, step, read", pointer);
}

// What is refused, or asks for no write, loses no power.
fn nothing_to_cut(output: &impl Print) {
    let gone = set(opened_a(), 1, 0xFF);
    say_cut_step(output, "P6 mark gone, power 0, step", gone, 0, 0x00, &[]);
    say_cut_open(output, "P6 opened, power 0, open", opened_a(), 0, 0x00, &[]);
}

pub(crate) fn cases(output: &impl Print) {
    cut_addresses_and_pointers(output);
    cut_marks(output);
    first_write_torn(output);
    second_write_torn(output);
    cut_moves(output);
    nothing_to_cut(output);
}
