// What is said of a refusal.
ghost use Rattle.std.specs.Prelude.{◌+◌, ◌≤◌, ◌≡◌, length};
ghost use Rattle.text.specs.Text.{Wrote};
ghost use Rattle.card.specs.Refusals.{number, code_of};
ghost use Rattle.card.specs.Answers.{answered_chip};
ghost use Rattle.stylus.specs.Prints.{read_words, card_words, said_of, read_longest, card_longest, said_longest};

use card::{ChipAnswer, Refusal, Wear};

// How long it is at most.
pub(crate) const LONGEST: usize = 87;

// Writes what is said of a read at the start of a text, and answers how long that is. By the read's number, since C gets that.
#[tactic(auto, using(text::proofs::Writing::wrote_none), unfolding(crate::specs::Prints::read_words))]
fn write_read(code: u32, text: &mut [u8]) -> usize
    requires { read_longest ≤ length text.old }
    ensures { (Wrote text.old 0 (read_words code) result text.new) × (result ≤ read_longest) }
{
    let words: &[u8] = match code {
        0 => b"",
        1 => b"chip: not 41 to 4096 bytes long\n",
        2 => b"chip: too short for setting A\n",
        3 => b"chip: no mark: never opened, or damaged\n",
        4 => b"chip: the map is not sound\n",
        5 => b"chip: a nibble is lost in both copies\n",
        _ => b"chip: the copies disagree\n",
    };
    text::write_bytes(words, text, 0)
}

// What is said of a card.
#[tactic(auto, unfolding(crate::specs::Prints::card_words))]
fn words_of(refusal: Refusal) -> &'static [u8]
    ensures { (result.now ≡ card_words (number refusal)) × (length result.now ≤ card_longest) }
{
    match refusal {
        Refusal::AllowanceOutOfRange => b"card: the allowance is not 1 to 1000000\n",
        Refusal::CountBelowFitted => b"card: the count is below the one when fitted\n",
        Refusal::RunsApart => b"card: the runs do not add up to the turns used\n",
        Refusal::TooManyRuns => b"card: more than 64 runs\n",
        Refusal::NotInForm | Refusal::RoomTooShort => b"card: the text is not in form\n",
    }
}

// Writes it, from an index on, and answers the index past it.
#[tactic(auto, using(text::proofs::Writing::wrote_none), unfolding(crate::specs::Prints::card_words))]
fn write_card(answer: Result<Wear, Refusal>, text: &mut [u8], at: usize) -> usize
    requires { at + card_longest ≤ length text.old }
    ensures { Wrote text.old at (card_words (code_of answer)) result text.new }
{
    match answer {
        Ok(_) => at,
        Err(refusal) => text::write_bytes(words_of(refusal), text, at),
    }
}

// Writes all of it at the start of a text, and answers how long it is: 0 where nothing is refused.
pub(crate) fn fill(chip: ChipAnswer, text: &mut [u8]) -> usize
    requires { said_longest ≤ length text.old }
    ensures { Wrote text.old 0 (said_of (answered_chip chip)) result text.new }
{
    let next = write_read(chip.read, text);
    write_card(chip.answer, text, next)
}
