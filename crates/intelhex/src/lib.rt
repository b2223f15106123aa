// Intel HEX in and out (document 02, P2): an image written as its one standard text, and a text read into an image. Nothing here knows
// what the image holds.
#![tactic(auto)]

mod lines;
mod parts;
mod records;
mod table;
mod texts;

ghost use Rattle.std.specs.Prelude.{◌≡◌, ◌≤◌, length, replicate};
ghost use Rattle.intelhex.specs.Lines.{lines_of};
ghost use Rattle.intelhex.specs.Doors.{outcome, sized, number_of, refusal_told, written_told, read_told, write_of, blank, read_lines, read_of};

use lines::NOT_YET;

// What a line of a text is at fault for, or the text behind its last line.
#[derive(Clone, Copy, Debug, PartialEq, Eq)]
pub enum Fault {
    // not in form, or behind the end record
    Malformed,
    Checksum,
    // a record of another type than 00 and 01
    Kind,
    // an address at or past the image's end
    PastEnd,
    // an address that is there twice
    Twice,
    // no line is left, and an address or the end record is missing
    Missing,
}

// Why an image is not written, or a text not read.
#[derive(Clone, Copy, Debug, PartialEq, Eq)]
pub enum Refusal {
    // what a line is at fault for, and its number, from 1 on
    AtLine(Fault, usize),
    BadLength,
    NoRoom,
}

// What a door comes to in numbers: 0 or that of the refusal, the line at fault, and how long the text is that was written. C gets it so,
// and the definitions speak of it.
#[derive(Clone, Copy)]
pub struct Answer {
    pub code: u32,
    pub line: usize,
    pub length: usize,
}

impl From<Fault> for u32 {
    ghost from_gives = { λ fault number. number ≡ number_of fault };

    fn from(fault: Fault) -> u32 {
        match fault {
            Fault::Malformed => 1,
            Fault::Checksum => 2,
            Fault::Kind => 3,
            Fault::PastEnd => 4,
            Fault::Twice => 5,
            Fault::Missing => 6,
        }
    }
}

impl From<Refusal> for Answer {
    ghost from_gives = { λ refusal answer. answer ≡ refusal_told refusal };

    fn from(refusal: Refusal) -> Answer {
        let (code, line) = match refusal {
            Refusal::AtLine(fault, line) => (fault.into(), line),
            Refusal::BadLength => (7, 0),
            Refusal::NoRoom => (8, 0),
        };
        Answer {
            code,
            line,
            length: 0,
        }
    }
}

impl From<Result<usize, Refusal>> for Answer {
    ghost from_gives = { λ written answer. answer ≡ written_told written };

    fn from(written: Result<usize, Refusal>) -> Answer {
        match written {
            Ok(length) => Answer {
                code: 0,
                line: 0,
                length,
            },
            Err(refusal) => refusal.into(),
        }
    }
}

impl From<Result<(), Refusal>> for Answer {
    ghost from_gives = { λ read answer. answer ≡ read_told read };

    fn from(read: Result<(), Refusal>) -> Answer {
        read.map(|()| 0).into()
    }
}

// Whether an image may have this length.
fn is_sized(n: usize) -> bool
    ensures { result ≡ sized n }
{
    (41..=4096).contains(&n)
}

// Writes an image as its standard text at the start of a text, and answers how long that is.
pub fn write_image(image: &[u8], text: &mut [u8]) -> Result<usize, Refusal>
    ensures { outcome (written_told result) text.new ≡ write_of image.now text.old }
{
    if !is_sized(image.len()) {
        return Err(Refusal::BadLength);
    }
    if text.len() < records::length_for(image.len()) {
        return Err(Refusal::NoRoom);
    }
    Ok(records::write_lines(image, text))
}

// Reads a text into an image of at most so many bytes, of which each has a cell. The bytes are copied when all of them are there, so that a
// refusal leaves the image alone.
fn read_within<const MOST: usize>(text: &[u8], image: &mut [u8]) -> Result<(), Refusal>
    requires { (length image.old ≤ MOST) × (MOST ≤ 4096) }
    ensures { outcome (read_told result) image.new ≡ read_lines image.old 0 (lines_of text.now) (blank (length image.old)) }
{
    let n = image.len();
    let mut laid = [NOT_YET; MOST];
    let cells = &mut laid[..n];
    texts::read_lines(text, cells)?;
    texts::copy(cells, image);
    Ok(())
}

// Reads a text into an image. A function clears the cells that it lays, so few are laid for a small image.
pub fn read_image(text: &[u8], image: &mut [u8]) -> Result<(), Refusal>
    ensures { outcome (read_told result) image.new ≡ read_of text.now image.old }
{
    let n = image.len();
    if !is_sized(n) {
        return Err(Refusal::BadLength);
    }
    if n <= 256 {
        return read_within::<256>(text, image);
    }
    read_within::<4096>(text, image)
}
