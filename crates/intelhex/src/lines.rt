// A text read line by line into a memory of cells, each of which has its byte or none yet. The parts of a line stand at fixed places behind
// an index, so slices would say no less. The table, the text and the index go side by side: a struct of them would be made for one index.
ghost use Rattle.std.specs.Prelude.{◌≡◌, ◌+◌, ◌*◌, ◌%◌, ◌<◌, ◌≤◌, false, not, ℕ, length, List, replicate, if◌then◌else◌, ◌==◌, MatchOption};
ghost use Rattle.intelhex.specs.Records.{data_kind};
ghost use Rattle.intelhex.specs.Faults.{not_yet};
ghost use Rattle.intelhex.specs.Inside.{end_at, headed, code_of, verdict, HeadIs, DataIs, Judged, LineIs};

use super::Fault;
use super::parts::{Data, Head};
use super::table::{Digits, NO_DIGIT};

// A cell that has no byte yet. A number, as `not_yet` of specs is, of which theorems speak.
pub(crate) const NOT_YET: u16 = 256;

// The record types that are taken, as the text has them. Numbers, as `kind_of` of specs and theorems speak of them.
const DATA: usize = 0;

const END: usize = 1;

// The index past the line end that stands at an index, if one does.
fn line_end(text: &[u8], at: usize) -> Option<usize>
    requires { at < length text.now }
    ensures { MatchOption result (end_at text.now at ≡ 0) (λ next. (next ≡ end_at text.now at) × (0 < next)) }
{
    if text[at] == b'\n' {
        return Some(at + 1);
    }
    if text[at] == b'\r' && at + 1 < text.len() && text[at + 1] == b'\n' {
        return Some(at + 2);
    }
    None
}

// Reads what stands before the data of the line that begins at an index, if there are a colon and a count that is a byte.
fn head_at(digits: &Digits, text: &[u8], at: usize) -> Option<Head>
    requires { at + 9 ≤ length text.now }
    ensures { MatchOption result (headed text.now at ≡ false) (λ head. HeadIs text.now at head) }
{
    let count = digits.byte_at(text, at + 1);
    if text[at] != b':' {
        return None;
    }
    if count > 255 {
        return None;
    }
    let high = digits.byte_at(text, at + 3);
    let low = digits.byte_at(text, at + 5);
    let kind = digits.byte_at(text, at + 7);
    Some(Head {
        count,
        address: 256 * high + low,
        kind,
        sum: count + high + low + kind,
    })
}

// Reads so many bytes of data into cells. One that is none shows in the sum, so that nothing is tested on the way. By an index, which says
// where a byte's signs stand and where its cell does.
fn read_data(
    digits: &Digits,
    text: &[u8],
    at: usize,
    count: usize,
    cells: &mut [u16],
    address: usize,
) -> Data
    requires { (count < 256) × (at + 2 * count ≤ length text.now) × (address + count ≤ length cells.old) × (length cells.old ≤ 4096) }
    ensures { DataIs text.now at count cells.old address result cells.new }
{
    let mut sum = 0;
    let mut twice = false;
    for done in 0..count {
        let byte = digits.byte_at(text, at + 2 * done);
        let place = address + done;
        twice |= cells[place] < NOT_YET;
        cells[place] = (byte % 256) as u16;
        sum += byte;
    }
    Data { sum, twice }
}

// What a data record in form is at fault for.
fn data_fault(
    sum: usize,
    address: usize,
    count: usize,
    size: usize,
    twice: bool,
) -> Result<(), Fault>
    requires { (address < 4294967296) × (count < 256) }
    ensures { code_of result ≡ verdict sum data_kind address count size twice }
{
    if count == 0 {
        return Err(Fault::Malformed);
    }
    if sum % 256 != 0 {
        return Err(Fault::Checksum);
    }
    if address + count > size {
        return Err(Fault::PastEnd);
    }
    if twice {
        return Err(Fault::Twice);
    }
    Ok(())
}

// What a record of a type that is not taken is at fault for.
fn other_fault(sum: usize) -> Result<(), Fault>
    ensures { code_of result ≡ (if not (sum % 256 == 0) then 2 else 3) }
{
    if sum % 256 != 0 {
        return Err(Fault::Checksum);
    }
    Err(Fault::Kind)
}

// What any record is at fault for whose signs are a colon and bytes: one that is not lawful is malformed. Most are data
// records. An end record that is lawful has no data, so `twice` is false of it; the promise is for any. Number by number, since each line
// read costs more instructions where `Head` and `Data` are handed on whole.
fn fault_of(
    sum: usize,
    kind: usize,
    address: usize,
    count: usize,
    size: usize,
    twice: bool,
) -> Result<(), Fault>
    requires { (address < 4294967296) × (count < 256) }
    ensures { code_of result ≡ verdict sum kind address count size twice }
{
    if kind == DATA {
        return data_fault(sum, address, count, size, twice);
    }
    if kind > END {
        return other_fault(sum);
    }
    if count != 0 {
        return Err(Fault::Malformed);
    }
    if address != 0 {
        return Err(Fault::Malformed);
    }
    if sum % 256 != 0 {
        return Err(Fault::Checksum);
    }
    if twice {
        return Err(Fault::Twice);
    }
    Ok(())
}

// A line without a fault: where the next one begins, how many cells it filled, and whether it is the end record.
#[derive(Clone, Copy)]
pub(crate) struct Line {
    pub(crate) next: usize,
    pub(crate) filled: usize,
    pub(crate) closed: bool,
}

// Reads what stands behind the data of a line, from its checksum on, and judges the line.
fn judge(
    digits: &Digits,
    text: &[u8],
    at: usize,
    head: Head,
    held: Data,
    size: usize,
) -> Result<Line, Fault>
    requires { at + 3 ≤ length text.now }
    ensures { Judged text.now at head held size result }
{
    let sum = head.sum + held.sum + digits.byte_at(text, at);
    if sum >= NO_DIGIT as usize {
        return Err(Fault::Malformed);
    }
    let next = line_end(text, at + 2).ok_or(Fault::Malformed)?;
    fault_of(sum, head.kind, head.address, head.count, size, held.twice)?;
    Ok(Line {
        next,
        filled: head.count,
        closed: head.kind == END,
    })
}

// Reads data that cannot be stored. The cells for them are laid here alone, since a function clears the ones it lays.
fn read_aside(digits: &Digits, text: &[u8], at: usize, count: usize) -> Data
    requires { (count < 256) × (at + 2 * count ≤ length text.now) }
    ensures { (after : List ℕ) × DataIs text.now at count (replicate 256 not_yet) 0 result after }
{
    let mut cells = [NOT_YET; 256];
    read_data(digits, text, at, count, &mut cells, 0)
}

// Reads the line that begins at an index into cells. What cannot be stored is read aside, since its form and its checksum are judged
// first.
pub(crate) fn read_line(
    digits: &Digits,
    text: &[u8],
    at: usize,
    cells: &mut [u16],
) -> Result<Line, Fault>
    requires { (at < length text.now) × (length cells.old ≤ 4096) }
    ensures { LineIs text.now at cells.old result cells.new }
{
    let least = at + 12;
    if text.len() < least {
        return Err(Fault::Malformed);
    }
    let Some(head) = head_at(digits, text, at) else {
        return Err(Fault::Malformed);
    };
    let count = head.count;
    let address = head.address;
    if text.len() < least + 2 * count {
        return Err(Fault::Malformed);
    }
    let start = at + 9;
    if address + count <= cells.len() {
        let held = read_data(digits, text, start, count, cells, address);
        return judge(digits, text, start + 2 * count, head, held, cells.len());
    }
    let held = read_aside(digits, text, start, count);
    judge(digits, text, start + 2 * count, head, held, cells.len())
}
