// The line that is said of a text that is refused.
ghost use Rattle.std.specs.Prelude.{◌≡◌, ◌≤◌, length};
ghost use Rattle.text.specs.Text.{Wrote};
ghost use Rattle.intelhex.specs.Doors.{number_of, refusal_told, read_told};
ghost use Rattle.fromhex.specs.Refusals.{words_of, place_of, refusal_of, Said, words_longest, place_longest, longest};

use intelhex::{Fault, Refusal};
use text::Decimal;

// How long the line is at most.
pub(crate) const LONGEST: usize = 87;

// What is said of an image's length.
const LENGTH: &[u8] = b"the image is not 41 to 4096 bytes long\n";

// The words of a fault, and the line's end.
#[tactic(auto, unfolding(crate::specs::Refusals::words_of))]
fn words(fault: Fault) -> &'static [u8]
    ensures { (result.now ≡ words_of (number_of fault)) × (length result.now ≤ words_longest) }
{
    match fault {
        Fault::Malformed => b"not in form, behind the end record, or without its line end\n",
        Fault::Checksum => b"the checksum is wrong\n",
        Fault::Kind => b"a record type other than 00 and 01\n",
        Fault::PastEnd => b"an address at or past the image's end\n",
        Fault::Twice => b"an address that is there twice\n",
        Fault::Missing => b"the text ends with an address or the end record missing\n",
    }
}

// Writes which line is to blame at the start of a text, and answers how long that is.
fn write_place(line: usize, text: &mut [u8]) -> usize
    requires { place_longest ≤ length text.old }
    ensures { (Wrote text.old 0 (place_of line) result text.new) × (result ≤ place_longest) }
{
    let start = text::write_bytes(b"line ", text, 0);
    let end = line.write(text, start);
    text::write_bytes(b": ", text, end)
}

// Writes the line that a refusal is said by at the start of a text, and answers how long it is.
fn write_refusal(refusal: Refusal, text: &mut [u8]) -> usize
    requires { longest ≤ length text.old }
    ensures { Wrote text.old 0 (refusal_of (refusal_told refusal)) result text.new }
{
    match refusal {
        Refusal::AtLine(fault, line) => {
            let place = write_place(line, text);
            text::write_bytes(words(fault), text, place)
        }
        Refusal::BadLength => text::write_bytes(LENGTH, text, 0),
        // a text is not refused for this, but the line would be this one
        Refusal::NoRoom => {
            let place = write_place(0, text);
            text::write_bytes(LENGTH, text, place)
        }
    }
}

// Writes the line of what a reading was refused for, if it was, and answers how long that is.
pub(crate) fn fill(read: Result<(), Refusal>, text: &mut [u8]) -> Option<usize>
    requires { longest ≤ length text.old }
    ensures { Said text.old (read_told read) result text.new }
{
    let refusal = read.err()?;
    Some(write_refusal(refusal, text))
}
