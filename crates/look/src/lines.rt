// The lines of a read: four of its answer, and one for each bit.
ghost use Rattle.std.specs.Prelude.{◌+◌, ◌*◌, ◌≤◌, ◌<◌, length};
ghost use mathlib.Core.List.{flatten};
ghost use Rattle.text.specs.Text.{decimal, line, Wrote};
ghost use Rattle.look.specs.Look.{bit_key, answer_text, bit_lines, look_text, answer_longest, bit_longest, longest};

use counter::doors::ReadAnswer;
use counter::verdict::Answer;

// How long the lines of a read are at most.
pub(crate) const LONGEST: usize = 213;

// Writes an answer's lines at the start of a text, and answers how long they are.
fn fill_answer(answer: Answer, text: &mut [u8]) -> usize
    requires { answer_longest ≤ length text.old }
    ensures { (Wrote text.old 0 (answer_text answer) result text.new) × (result ≤ answer_longest) }
{
    let coded = text::write_line(b"code", answer.code, text, 0);
    let counted = text::write_line(b"count", answer.count, text, coded);
    let lagged = text::write_line(b"lag", answer.lag, text, counted);
    text::write_line(b"place", answer.place, text, lagged)
}

// Writes the line of a bit's count, from an index on, and answers the index past it.
fn write_bit(bit: usize, count: u32, text: &mut [u8], at: usize) -> usize
    requires { (bit < 8) × (at + bit_longest ≤ length text.old) }
    ensures { (Wrote text.old at (line (bit_key bit) (decimal count)) result text.new) × (result ≤ at + bit_longest) }
{
    let key = [b'b', b'i', b't', b'0' + bit as u8];
    text::write_line(&key, count, text, at)
}

// Writes the lines of all bits.
fn write_bits(bits: [u32; 8], text: &mut [u8], at: usize) -> usize
    requires { at + 8 * bit_longest ≤ length text.old }
    ensures { Wrote text.old at (flatten (bit_lines bits)) result text.new }
{
    let mut next = at;
    for (bit, count) in bits.iter().enumerate() {
        next = write_bit(bit, *count, text, next);
    }
    next
}

// Writes the lines of a read at the start of a text, and answers how long they are.
pub(crate) fn fill(read: ReadAnswer, text: &mut [u8]) -> usize
    requires { longest ≤ length text.old }
    ensures { Wrote text.old 0 (look_text read) result text.new }
{
    let bits = read.bits;
    let next = fill_answer(read.answer, text);
    write_bits(bits, text, next)
}
