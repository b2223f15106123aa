// The standard text, record by record. Each function writes into a lent text from an index on, asks for room for what it writes,
// and answers the index past it.
ghost use Rattle.std.specs.Prelude.{◌≡◌, ◌+◌, ◌*◌, ◌/◌, ◌%◌, ◌<◌, ◌≤◌, [], length};
ghost use Rattle.text.specs.Text.{Wrote};
ghost use Rattle.intelhex.specs.Signs.{digit, two_digits, in_digits, total};
ghost use Rattle.intelhex.specs.Records.{line_of, records_in, standard_text, data_kind, end_kind};
ghost use Rattle.intelhex.specs.Inside.{head_of, tail_of};

// The sign of a digit, in capitals.
fn sign_of(d: u8) -> u8
    requires { d < 16 }
    ensures { result ≡ digit d }
{
    if d < 10 {
        return b'0' + d;
    }
    b'A' - 10 + d
}

// Writes a byte as two digits.
fn write_pair(byte: u8, text: &mut [u8], at: usize) -> usize
    requires { at + 2 ≤ length text.old }
    ensures { Wrote text.old at (two_digits byte) result text.new }
{
    let next = text::write_byte(sign_of(byte / 16), text, at);
    text::write_byte(sign_of(byte % 16), text, next)
}

// Writes bytes as digits, and answers a sum with theirs added to it, modulo 256.
fn write_pairs(sum: u8, bytes: &[u8], text: &mut [u8], at: usize) -> u8
    requires { at + 2 * length bytes.now ≤ length text.old }
    ensures { (result ≡ (sum + total bytes.now) % 256) × Wrote text.old at (in_digits bytes.now) (at + 2 * length bytes.now) text.new }
{
    let mut sum = sum;
    let mut next = at;
    for byte in bytes {
        next = write_pair(*byte, text, next);
        sum = sum.wrapping_add(*byte);
    }
    sum
}

// Writes what stands before the data of a data record: the colon, how many bytes there are, the address and the type.
fn write_head(count: u8, high: u8, low: u8, text: &mut [u8], at: usize) -> usize
    requires { at + 9 ≤ length text.old }
    ensures { Wrote text.old at (head_of data_kind high low count) result text.new }
{
    let first = text::write_byte(b':', text, at);
    let second = write_pair(count, text, first);
    let third = write_pair(high, text, second);
    let fourth = write_pair(low, text, third);
    write_pair(0, text, fourth)
}

// Writes what stands behind the data: the checksum and the line feed.
fn write_tail(sum: u8, text: &mut [u8], at: usize) -> usize
    requires { at + 3 ≤ length text.old }
    ensures { Wrote text.old at (tail_of sum) result text.new }
{
    let next = write_pair(0u8.wrapping_sub(sum), text, at);
    text::write_byte(b'\n', text, next)
}

// Writes the line of a data record.
fn write_line(address: usize, bytes: &[u8], text: &mut [u8], at: usize) -> usize
    requires { (address < 65536) × (length bytes.now ≤ 16) × (at + 12 + 2 * length bytes.now ≤ length text.old) }
    ensures { Wrote text.old at (line_of data_kind address bytes.now) result text.new }
{
    let count = bytes.len() as u8;
    let [high, low] = (address as u16).to_be_bytes();
    let next = write_head(count, high, low, text, at);
    let sum = count.wrapping_add(high).wrapping_add(low);
    let sum = write_pairs(sum, bytes, text, next);
    write_tail(sum, text, next + 2 * bytes.len())
}

// Writes the line of the end record.
fn write_end(text: &mut [u8], at: usize) -> usize
    requires { at + 12 ≤ length text.old }
    ensures { Wrote text.old at (line_of end_kind 0 []) result text.new }
{
    text::write_bytes(b":00000001FF\n", text, at)
}

// How long the standard text of an image of n bytes is.
pub(crate) fn length_for(n: usize) -> usize
    requires { n ≤ 4096 }
    ensures { result ≡ 2 * n + 12 * records_in n + 12 }
{
    2 * n + 12 * ((n + 15) / 16) + 12
}

// Writes the standard text. The address goes on by itself: with `enumerate` each record costs more instructions.
pub(crate) fn write_lines(image: &[u8], text: &mut [u8]) -> usize
    requires { (length image.now ≤ 4096) × (length (standard_text image.now) ≤ length text.old) }
    ensures { Wrote text.old 0 (standard_text image.now) result text.new }
{
    let mut address = 0;
    let mut next = 0;
    for bytes in image.chunks(16) {
        next = write_line(address, bytes, text, next);
        address += 16;
    }
    write_end(text, next)
}
