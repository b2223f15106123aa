// The stylus card (document 02, P4). Most cases are of one card: fitted at 100, 5000 turns allowed, 10 turns cut at 33 1/3 and 3 at
// 45. Its text has 66 signs.
use super::bench::near_the_end;
use super::chips::set;
use super::lines::{say_again, say_answer, say_card, say_chip};
use super::texts::{Text, add, answer, empty, end_at, read_card, write_card};
use card::Card;
use std::io::Print;

// A run of one turn.
const RUN: [u8; 17] = *b"speed=33\nturns=1\n";

// A card with the two runs in the first two places, which says that it has so many.
fn card_of(fitted: u32, allowed: u32, runs: usize) -> Card {
    let mut speeds = [33u32; 64];
    let mut turns = [10u32; 64];
    speeds[1] = 45;
    turns[1] = 3;
    Card {
        fitted,
        allowed,
        runs,
        speeds,
        turns,
    }
}

// With room for one sign less there is no text.
fn written(output: &impl Print) -> Text {
    let short = write_card(card_of(100, 5000, 2), 65);
    say_card(output, "P4 room 65, write", short.answer);
    let done = write_card(card_of(100, 5000, 2), 66);
    say_card(output, "P4 room 66, write", done.answer);
    done.text
}

fn say_text(output: &impl Print, name: &str, text: Text, count: u32) {
    say_answer(output, name, answer(text, count));
}

// The runs add up to the turns used at 113 alone, and at 99 the sapphire was not yet fitted.
fn counts(output: &impl Print, text: Text) {
    say_text(output, "P4 count 113, answer", text, 113);
    say_text(output, "P4 count 99, answer", text, 99);
    say_text(output, "P4 count 112, answer", text, 112);
    say_text(output, "P4 count 114, answer", text, 114);
}

// One card has one text.
fn read_back(output: &impl Print, text: Text) {
    let Ok(card) = read_card(text) else {
        return;
    };
    let again = write_card(card, 66);
    say_again(
        output,
        "P4 read back, write",
        again.answer,
        again.text == text,
    );
}

// The lines before the runs, with these numbers.
fn head(allowed: &[u8], runs: &[u8]) -> Text {
    let text = add(add(empty(), b"fitted=100\nallowed="), allowed);
    add(add(add(text, b"\nruns="), runs), b"\n")
}

// The card's text with another allowance.
fn allowing(allowed: &[u8]) -> Text {
    add(
        head(allowed, b"2"),
        b"speed=33\nturns=10\nspeed=45\nturns=3\n",
    )
}

// Turns left are negative once overrun.
fn overrun_and_unused(output: &impl Print) {
    say_text(
        output,
        "P4 allowed 12, count 113, answer",
        allowing(b"12"),
        113,
    );
    say_text(
        output,
        "P4 no runs, count 100, answer",
        head(b"5000", b"0"),
        100,
    );
}

// Outside both limits, and at the upper one; and a number above 4294967295, which is not in form.
fn allowances(output: &impl Print) {
    say_text(
        output,
        "P4 allowed 0, count 113, answer",
        allowing(b"0"),
        113,
    );
    say_text(
        output,
        "P4 allowed 1000000, count 113, answer",
        allowing(b"1000000"),
        113,
    );
    say_text(
        output,
        "P4 allowed 1000001, count 113, answer",
        allowing(b"1000001"),
        113,
    );
    say_text(
        output,
        "P4 allowed 4294967296, count 113, answer",
        allowing(b"4294967296"),
        113,
    );
}

// 64 runs alike behind a text.
fn add_64(mut text: Text, run: &[u8]) -> Text {
    for _ in 0..64usize {
        text = add(text, run);
    }
    text
}

// The turns of the second text come to 2 to the power of 38, less 64; those of the third to 13, if they wrapped at 32 bits.
fn most_runs(output: &impl Print) {
    let text = add_64(head(b"5000", b"64"), &RUN);
    say_text(output, "P4 64 runs, count 164, answer", text, 164);
    let large = add_64(head(b"5000", b"64"), b"speed=33\nturns=4294967295\n");
    say_text(
        output,
        "P4 64 runs of 4294967295, count 113, answer",
        large,
        113,
    );
    let wrapping = add(
        head(b"5000", b"2"),
        b"speed=33\nturns=4294967295\nspeed=45\nturns=14\n",
    );
    say_text(
        output,
        "P4 runs of 4294967295 and 14, count 113, answer",
        wrapping,
        113,
    );
}

// Refusals 5 and 1 come before that of a run too many.
fn too_many_runs(output: &impl Print) {
    let text = add_64(head(b"5000", b"65"), &RUN);
    say_text(
        output,
        "P4 65 runs, count 165, answer",
        add(text, &RUN),
        165,
    );
    let other = add(text, b"speed=78\nturns=1\n");
    say_text(
        output,
        "P4 65 runs, the last at 78, count 165, answer",
        other,
        165,
    );
    let zero = add(add_64(head(b"0", b"65"), &RUN), &RUN);
    say_text(
        output,
        "P4 65 runs, allowed 0, count 165, answer",
        zero,
        165,
    );
}

// The texts of no card.
fn malformed(output: &impl Print, text: Text) {
    say_text(
        output,
        "P4 leading zero, count 113, answer",
        allowing(b"05000"),
        113,
    );
    say_text(
        output,
        "P4 byte behind the text, count 113, answer",
        add(text, b"\n"),
        113,
    );
    say_text(
        output,
        "P4 last line feed missing, count 113, answer",
        end_at(text, 65),
        113,
    );
}

fn say_rows(output: &impl Print, name: &str, speeds: &[u32], turns: &[u32]) {
    let mut text = [0u8; 1706];
    say_card(
        output,
        name,
        card::write_rows(100, 5000, speeds, turns, &mut text),
    );
}

// Rows can be of different lengths or too long, and a card can say that it has more runs than places.
fn rows(output: &impl Print) {
    say_rows(output, "P4 speed 78, write", &[78], &[13]);
    say_rows(output, "P4 rows of 2 and 1, write", &[33, 45], &[13]);
    say_rows(output, "P4 65 runs, write", &[33; 65], &[1; 65]);
    let done = write_card(card_of(100, 5000, 65), 1706);
    say_card(output, "P4 a card that says 65 runs, write", done.answer);
}

// A chip that is refused has no count, and the card answers only what it is refused for by itself.
fn on_chips(output: &impl Print) {
    let chip = near_the_end();
    let card = card_of(4294967281, 5000, 2);
    say_chip(output, "P4 chip at 4294967294, answer", card, chip);
    let gone = set(chip, 1, 0xFF);
    say_chip(output, "P4 chip, mark gone, answer", card, gone);
    let zero = card_of(4294967281, 0, 2);
    say_chip(output, "P4 chip, mark gone, allowed 0, answer", zero, gone);
}

pub(crate) fn cases(output: &impl Print) {
    let text = written(output);
    counts(output, text);
    read_back(output, text);
    overrun_and_unused(output);
    allowances(output);
    most_runs(output);
    too_many_runs(output);
    malformed(output, text);
    rows(output);
    on_chips(output);
}
