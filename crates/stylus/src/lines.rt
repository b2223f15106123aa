// The lines of what a card answers.
ghost use Rattle.std.specs.Prelude.{◌+◌, ◌≤◌, length};
ghost use Rattle.text.specs.Text.{Wrote};
ghost use Rattle.card.specs.Answers.{answered_chip};
ghost use Rattle.stylus.specs.Prints.{first_lines, last_lines, lines_of, first_longest, last_longest, lines_longest};

use card::ChipAnswer;

// How long they are at most.
pub(crate) const LONGEST: usize = 100;

// Writes the first three at the start of a text, and answers how long they are.
fn write_first(read: u32, code: u32, used: u32, text: &mut [u8]) -> usize
    requires { first_longest ≤ length text.old }
    ensures { (Wrote text.old 0 (first_lines read code used) result text.new) × (result ≤ first_longest) }
{
    let first = text::write_line(b"read", read, text, 0);
    let second = text::write_line(b"code", code, text, first);
    text::write_line(b"used", used, text, second)
}

// Writes the others, from an index on, and answers the index past them.
fn write_last(left: i64, time: u64, text: &mut [u8], at: usize) -> usize
    requires { at + last_longest ≤ length text.old }
    ensures { Wrote text.old at (last_lines left time) result text.new }
{
    let next = text::write_line(b"left", left, text, at);
    text::write_line(b"time", time, text, next)
}

// Writes all of them at the start of a text, and answers how long they are. A refusal has zeros beside its code; a conversion that said so
// would be no shorter than the two arms.
pub(crate) fn fill(chip: ChipAnswer, text: &mut [u8]) -> usize
    requires { lines_longest ≤ length text.old }
    ensures { Wrote text.old 0 (lines_of (answered_chip chip)) result text.new }
{
    match chip.answer {
        Ok(wear) => {
            let next = write_first(chip.read, 0, wear.used, text);
            write_last(wear.left, wear.time, text, next)
        }
        Err(refusal) => {
            let next = write_first(chip.read, refusal.into(), 0, text);
            write_last(0, 0, text, next)
        }
    }
}
