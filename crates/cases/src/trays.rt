// Trays of dumps (document 02, P7): of setting A, up to three images; and of images of a byte each, up to 65.
use super::bench::{END_A, SIZE_A};
use super::chips::{MAP, START, blank, opened, set, set_both};
use super::lines::say_tray;
use super::texts::{Text, empty, end_at, lay};
use std::io::Print;

// A chip at 1: nibble 0 of both copies has the code 07.
fn at_1() -> Text {
    lay(empty(), set_both(opened(SIZE_A, END_A), 128, 125, 0x07))
}

// Behind it a blank chip, and one whose first two pointers are alike.
fn three() -> Text {
    let two = lay(at_1(), blank(SIZE_A, MAP, START, END_A));
    lay(two, set(opened(SIZE_A, END_A), 3, 127))
}

// Each image has its own entries, and those past the images stay.
fn good_trays(output: &impl Print) {
    say_tray(output, "P7 one image", at_1(), SIZE_A, END_A, 4, 4);
    say_tray(output, "P7 three images", three(), SIZE_A, END_A, 4, 4);
    say_tray(
        output,
        "P7 three images, rows of 3",
        three(),
        SIZE_A,
        END_A,
        3,
        3,
    );
}

// What is wrong with the length or the settings of an image is told in its entries.
fn refused_images(output: &impl Print) {
    say_tray(
        output,
        "P7 images of 40",
        end_at(three(), 120),
        40,
        END_A,
        4,
        4,
    );
    say_tray(
        output,
        "P7 the area ends at 129",
        three(),
        SIZE_A,
        129,
        4,
        4,
    );
}

fn short_rows(output: &impl Print) {
    say_tray(output, "P7 counts of 2", three(), SIZE_A, END_A, 2, 4);
    say_tray(output, "P7 codes of 2", three(), SIZE_A, END_A, 4, 2);
}

fn no_trays(output: &impl Print) {
    say_tray(output, "P7 image length 0", three(), 0, END_A, 4, 4);
    say_tray(output, "P7 no image", empty(), SIZE_A, END_A, 4, 4);
    let short = end_at(three(), 386);
    say_tray(output, "P7 a byte too few", short, SIZE_A, END_A, 4, 4);
    let long = end_at(three(), 388);
    say_tray(output, "P7 a byte too many", long, SIZE_A, END_A, 4, 4);
}

fn many_images(output: &impl Print) {
    say_tray(
        output,
        "P7 64 images",
        end_at(three(), 64),
        1,
        END_A,
        64,
        64,
    );
    say_tray(
        output,
        "P7 65 images",
        end_at(three(), 65),
        1,
        END_A,
        64,
        64,
    );
}

pub(crate) fn cases(output: &impl Print) {
    good_trays(output);
    refused_images(output);
    short_rows(output);
    no_trays(output);
    many_images(output);
}
