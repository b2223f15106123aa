// A line for each case: its name, the answer's numbers and, where they say more, some cells, or the counts of mended bits. What
// cannot be printed is missing from the output, and so is not what `stdout` holds.
use super::chips::{Chip, Done, answer_of, blank, cell, open, read, step, trial_open, trial_step};
use super::texts::{Text, read_tray};
use card::{Card, Refusal, Wear};
use counter::verdict::Answer;
use std::fmt::{self, Display};
use std::io::Print;

// What the call found, and what it took.
fn print_answer(output: &impl Print, name: impl Display + Drop, answer: Answer) {
    let Answer {
        code,
        count,
        lag,
        place,
        writes,
        tried,
    } = answer;
    let _ = print!(output;
        "{name}: code={code} count={count} lag={lag} place={place} writes={writes} tried={tried}"
    );
}

// With these cells of the chip.
fn say(
    output: &impl Print,
    name: impl Display + Drop,
    answer: Answer,
    chip: Chip,
    cells: &[usize],
) {
    print_answer(output, name, answer);
    for at in cells {
        let _ = print!(output; " cell {at}={}", cell(chip, *at));
    }
    let _ = println!(output);
}

// The line of what a door leaves, with the cells to show. It hands on the chip.
fn say_done(output: &impl Print, name: impl Display + Drop, done: Done, cells: &[usize]) -> Chip {
    say(output, name, done.answer, done.chip, cells);
    done.chip
}

// Calls of the doors, and their lines, with the cells to show. Each hands on the chip that the door leaves.
pub(crate) fn say_open(
    output: &impl Print,
    name: impl Display + Drop,
    chip: Chip,
    cells: &[usize],
) -> Chip {
    say_done(output, name, open(chip), cells)
}

pub(crate) fn say_step(
    output: &impl Print,
    name: impl Display + Drop,
    chip: Chip,
    cells: &[usize],
) -> Chip {
    say_done(output, name, step(chip), cells)
}

// Calls that lose their power. The cell to show is the torn one.
pub(crate) fn say_cut_open(
    output: &impl Print,
    name: impl Display + Drop,
    chip: Chip,
    power: usize,
    torn: u8,
    cells: &[usize],
) -> Chip {
    say_done(output, name, trial_open(chip, power, torn), cells)
}

pub(crate) fn say_cut_step(
    output: &impl Print,
    name: impl Display + Drop,
    chip: Chip,
    power: usize,
    torn: u8,
    cells: &[usize],
) -> Chip {
    say_done(output, name, trial_step(chip, power, torn), cells)
}

// A read leaves the chip as it is.
pub(crate) fn say_read(output: &impl Print, name: impl Display + Drop, chip: Chip) {
    let done = read(chip);
    say(output, name, done.answer, chip, &[]);
}

// A read with the counts of mended bits, the lowest bit first.
pub(crate) fn say_mended(output: &impl Print, name: &str, chip: Chip) {
    let done = read(chip);
    let bits = done.bits;
    print_answer(output, name, done.answer);
    for (bit, count) in bits.iter().enumerate() {
        let _ = print!(output; " bit{bit}={count}");
    }
    let _ = println!(output);
}

// Opens a blank chip.
pub(crate) fn say_blank(
    output: &impl Print,
    name: &str,
    size: usize,
    map: usize,
    start: usize,
    end: usize,
) {
    say_open(output, name, blank(size, map, start, end), &[]);
}

pub(crate) fn say_written(
    output: &impl Print,
    name: &str,
    answer: Result<usize, intelhex::Refusal>,
) {
    let intelhex::Answer { code, line, length } = answer.into();
    let _ = println!(output; "{name}: code={code} line={line} length={length}");
}

// With whether the image that a text was read into is now the one that was written, and whether it is kept as it was.
pub(crate) fn say_taken(
    output: &impl Print,
    name: &str,
    answer: Result<(), intelhex::Refusal>,
    written: bool,
    kept: bool,
) {
    let intelhex::Answer { code, line, length } = answer.into();
    let _ = println!(output;
        "{name}: code={code} line={line} length={length} written={} kept={}",
        written as u8, kept as u8
    );
}

// 0, or the number of a refusal.
fn code_of<T: Copy>(answer: Result<T, Refusal>) -> u32 {
    match answer {
        Ok(_) => 0,
        Err(refusal) => refusal.into(),
    }
}

pub(crate) fn say_card(output: &impl Print, name: &str, answer: Result<usize, Refusal>) {
    let code = code_of(answer);
    let length = answer.unwrap_or(0);
    let _ = println!(output; "{name}: code={code} length={length}");
}

// With whether the text is the one that the card was read from.
pub(crate) fn say_again(
    output: &impl Print,
    name: &str,
    answer: Result<usize, Refusal>,
    same: bool,
) {
    let code = code_of(answer);
    let length = answer.unwrap_or(0);
    let _ = println!(output; "{name}: code={code} length={length} same={}", same as u8);
}

// What a card answers, as zeros where it refuses.
fn wear_of(answer: Result<Wear, Refusal>) -> Wear {
    answer.unwrap_or(Wear {
        used: 0,
        left: 0,
        time: 0,
    })
}

pub(crate) fn say_answer(output: &impl Print, name: &str, answer: Result<Wear, Refusal>) {
    let code = code_of(answer);
    let Wear { used, left, time } = wear_of(answer);
    let _ = println!(output; "{name}: code={code} used={used} left={left} time={time}");
}

// At a chip's count, with the code of its read.
pub(crate) fn say_chip(output: &impl Print, name: &str, card: Card, chip: Chip) {
    let told = answer_of(card, chip);
    let read = told.read;
    let code = code_of(told.answer);
    let Wear { used, left, time } = wear_of(told.answer);
    let _ = println!(output; "{name}: read={read} code={code} used={used} left={left} time={time}");
}

// What C is told where a tray is refused.
const TRAY_REFUSED: u32 = 12;

// What a line shows of a row: its first four entries.
#[derive(Drop)]
struct Row([u32; 64]);

impl fmt::Display for Row {
    fn fmt<W: fmt::Write>(&self, f: &mut fmt::Formatter<W>) -> fmt::Result {
        let [first, second, third, fourth, ..] = self.0;
        write!(f, "{first},{second},{third},{fourth}")
    }
}

// What a tray leaves.
pub(crate) fn say_tray(
    output: &impl Print,
    name: &str,
    tray: Text,
    each: usize,
    end: usize,
    counted: usize,
    coded: usize,
) {
    let left = read_tray(tray, each, end, counted, coded);
    let code = if left.answer.is_ok() { 0 } else { TRAY_REFUSED };
    let counts = Row(left.counts);
    let codes = Row(left.codes);
    let _ = println!(output; "{name}: code={code} counts={counts} codes={codes}");
}
