// The lines of a tray, one for each image.
ghost use Rattle.std.specs.Prelude.{◌+◌, ◌*◌, ◌≤◌, ◌++◌, length, get_or};
ghost use Rattle.text.specs.Text.{Wrote};
ghost use Rattle.tray.specs.Prints.{line_of, lines_of, line_longest};

use text::Decimal;

// How long they are at most.
pub(crate) const LONGEST: usize = 3904;

// Writes a key and a number, from an index on, and answers the index past them.
fn write_field<N: Decimal>(key: &[u8], value: N, text: &mut [u8], at: usize) -> usize
    requires { at + length (key.now ++ N.shown value) ≤ length text.old }
    ensures { Wrote text.old at (key.now ++ N.shown value) result text.new }
{
    let next = text::write_bytes(key, text, at);
    value.write(text, next)
}

// Writes the line of an image, from an index on, and answers the index past it. The code is a number, as the rows have it that C may lend.
fn write_line(number: usize, code: u32, count: u32, text: &mut [u8], at: usize) -> usize
    requires { at + line_longest ≤ length text.old }
    ensures { (Wrote text.old at (line_of number code count) result text.new) × (result ≤ at + line_longest) }
{
    let numbered = write_field(b"number=", number, text, at);
    let coded = write_field(b" code=", code, text, numbered);
    let counted = write_field(b" count=", count, text, coded);
    text::write_byte(b'\n', text, counted)
}

// Writes the lines of the first images of two rows at the start of a text, and answers how long they are. By an index, which
// is printed too.
pub(crate) fn fill(codes: &[u32], counts: &[u32], images: usize, text: &mut [u8]) -> usize
    requires { (images ≤ length codes.now) × (images ≤ length counts.now) × (images * line_longest ≤ length text.old) }
    ensures { Wrote text.old 0 (lines_of (λ i. get_or codes.now i 0) (λ i. get_or counts.now i 0) images) result text.new }
{
    let mut next = 0;
    for done in 0..images {
        next = write_line(done + 1, codes[done], counts[done], text, next);
    }
    next
}
