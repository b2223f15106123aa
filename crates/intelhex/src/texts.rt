// A whole text read into cells, and cells copied into an image.
ghost use Rattle.std.specs.Prelude.{◌≡◌, ◌+◌, ◌<◌, ◌≤◌, true, length, replicate, if◌then◌else◌};
ghost use Rattle.intelhex.specs.Faults.{not_yet, all_taken};
ghost use Rattle.intelhex.specs.Doors.{answer, read_told};
ghost use Rattle.intelhex.specs.Inside.{TextIs};

use super::lines::read_line;
use super::table::Digits;
use super::{Fault, Refusal};

// Copies cells that all have their bytes. By an index: of a `zip` behind `iter_mut` the library does not say which elements it wrote.
pub(crate) fn copy(cells: &[u16], image: &mut [u8])
    requires { (length cells.now ≡ length image.old) × (length cells.now ≤ 4096) × (all_taken cells.now ≡ true) }
    ensures { image.new ≡ cells.now }
{
    for (k, byte) in image.iter_mut().enumerate() {
        *byte = cells[k] as u8;
    }
}

// What is answered behind the end record, where so many lines were read: one more is malformed, and all cells have to be filled.
fn closing(more: bool, done: usize, all: bool) -> Result<(), Refusal>
    requires { done < 18446744073709551615 }
    ensures { read_told result ≡ (if more then answer 1 (done + 1) 0 else (if all then answer 0 0 0 else answer 6 done 0)) }
{
    if more {
        return Err(Refusal::AtLine(Fault::Malformed, done + 1));
    }
    if all {
        return Ok(());
    }
    Err(Refusal::AtLine(Fault::Missing, done))
}

// Reads a text line by line into cells, none of which has its byte yet. No cell is filled twice, so all have their bytes where as many
// were filled as there are. Each line says where the next one begins.
pub(crate) fn read_lines(text: &[u8], cells: &mut [u16]) -> Result<(), Refusal>
    requires { (length cells.old ≤ 4096) × (cells.old ≡ replicate (length cells.old) not_yet) }
    ensures { TextIs text.now cells.old result cells.new }
{
    let digits = Digits::new();
    let mut at = 0;
    let mut done = 0;
    let mut filled = 0;
    while at < text.len() {
        let line = match read_line(&digits, text, at, cells) {
            Ok(line) => line,
            Err(fault) => return Err(Refusal::AtLine(fault, done + 1)),
        };
        at = line.next;
        filled += line.filled;
        done += 1;
        if line.closed {
            return closing(at < text.len(), done, filled == cells.len());
        }
    }
    Err(Refusal::AtLine(Fault::Missing, done))
}
