// Intel HEX in and out (document 02, P2), of setting A at 4294967294. Its text has nine data records and the end record. The ninth
// record is that of cell 128 alone, :010080000778, from index 352 on; the end record begins at 366, and the text ends at 378.
use super::bench::{END_A, SIZE_A, near_the_end};
use super::chips::{MAP, START, blank, is_alike};
use super::lines::{say_taken, say_written};
use super::texts::{Text, change, end_at, read, write};
use std::io::Print;

// Eight lines of 44 signs, one of 14 and one of 12: with room for one sign less there is no text.
fn written(output: &impl Print) -> Text {
    let short = write(near_the_end(), 377);
    say_written(output, "P2 setting A, room 377, write", short.answer);
    let done = write(near_the_end(), 378);
    say_written(output, "P2 setting A, room 378, write", done.answer);
    done.text
}

fn say_image(output: &impl Print, name: &str, image: &[u8]) {
    let mut text = [0u8; 11276];
    say_written(output, name, intelhex::write_image(image, &mut text));
}

// The longest image takes all of the room, and those of a length past either limit have no text.
fn lengths(output: &impl Print) {
    let image = [0u8; 4097];
    say_image(output, "P2 N 40, write", &image[..40]);
    say_image(output, "P2 N 4096, write", &image[..4096]);
    say_image(output, "P2 N 4097, write", &image);
}

// The longest text is read back here, since no chip of the cases has the cells for it.
fn longest(output: &impl Print) {
    let image = [0u8; 4096];
    let mut text = [0u8; 11276];
    let _ = intelhex::write_image(&image, &mut text);
    let blank = [0xFFu8; 4096];
    let mut after = [0xFFu8; 4096];
    let answer = intelhex::read_image(&text, &mut after);
    let written = after == image;
    let kept = after == blank;
    say_taken(output, "P2 N 4096, read", answer, written, kept);
}

// Reads a text into a blank chip of so many cells.
fn say_into(output: &impl Print, name: &str, text: Text, size: usize) {
    let before = blank(size, MAP, START, END_A);
    let taken = read(text, before);
    let written = is_alike(taken.chip, near_the_end());
    let kept = is_alike(taken.chip, before);
    say_taken(output, name, taken.answer, written, kept);
}

fn say_read(output: &impl Print, name: &str, text: Text) {
    say_into(output, name, text, SIZE_A);
}

// Small digits, and a carriage return, here in the end record.
fn taken(output: &impl Print, text: Text) {
    say_read(output, "P2 as written, read", text);
    let lower = change(change(text, 375, b'f'), 376, b'f');
    say_read(output, "P2 lower case, read", lower);
    let two_signs = change(change(text, 377, b'\r'), 378, b'\n');
    say_read(output, "P2 CR LF, read", end_at(two_signs, 379));
}

// A sign that is no digit, a line without its line end, and a line after the end record.
fn malformed(output: &impl Print, text: Text) {
    say_read(output, "P2 G for a digit, read", change(text, 9, b'G'));
    say_read(output, "P2 last line feed missing, read", end_at(text, 377));
    let more = change(text, 378, b'\n');
    say_read(output, "P2 a line after the end, read", end_at(more, 379));
}

// The ninth record with a wrong checksum, and with other types and the checksum for each; as an end record it is malformed.
fn other_types(output: &impl Print, text: Text) {
    say_read(output, "P2 checksum 77, read", change(text, 364, b'7'));
    let end = change(change(text, 360, b'1'), 364, b'7');
    say_read(output, "P2 type 01 with data, read", end);
    let extended = change(change(text, 360, b'4'), 364, b'4');
    say_read(output, "P2 type 04, read", extended);
}

// The ninth record at 129, which is N, and at 127, which the eighth has too.
fn other_addresses(output: &impl Print, text: Text) {
    let past = change(change(text, 358, b'1'), 364, b'7');
    say_read(output, "P2 address 129, read", past);
    let twice = change(change(text, 357, b'7'), 358, b'F');
    say_read(
        output,
        "P2 address 127 twice, read",
        change(twice, 364, b'9'),
    );
}

// Refusal 6 has the number of the last line. In a chip of 130 cells address 129 is missing.
fn incomplete(output: &impl Print, text: Text) {
    say_read(output, "P2 end record missing, read", end_at(text, 366));
    say_read(output, "P2 empty text, read", end_at(text, 0));
    say_into(output, "P2 N 130, read", text, 130);
}

// The eighth record begins at 112 and ends past 119.
fn other_sizes(output: &impl Print, text: Text) {
    say_into(output, "P2 N 120, read", text, 120);
    say_into(output, "P2 N 40, read", text, 40);
}

pub(crate) fn cases(output: &impl Print) {
    let text = written(output);
    lengths(output);
    longest(output);
    taken(output, text);
    malformed(output, text);
    other_types(output, text);
    other_addresses(output, text);
    incomplete(output, text);
    other_sizes(output, text);
}
