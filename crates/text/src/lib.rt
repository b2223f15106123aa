// Lines of key=value written into a lent text. A function that writes does so from an index on, asks for room for what it writes, and
// answers the index past it. Module `reading` reads them. The text and the index go side by side, and printing is by hand and not by
// Display, since `Wrote`, which docs/PROMISES.md names, says every byte of both, and there is no heap.
#![tactic(auto)]

pub mod reading;

ghost use Rattle.std.specs.Prelude.{◌+◌, ◌%◌, ◌<◌, ◌≤◌, ◌≡◌, ℕ, List, [], ◌∷◌, length};
ghost use Rattle.text.specs.Text.{digit, decimal, signed, line, Wrote};

// Writes one byte.
pub fn write_byte(byte: u8, text: &mut [u8], at: usize) -> usize
    requires { at < length text.old }
    ensures { Wrote text.old at (byte ∷ []) result text.new }
{
    text[at] = byte;
    at + 1
}

// Writes all of a run of bytes.
pub fn write_bytes(bytes: &[u8], text: &mut [u8], at: usize) -> usize
    requires { at + length bytes.now ≤ length text.old }
    ensures { Wrote text.old at bytes.now result text.new }
{
    let mut next = at;
    for byte in bytes {
        next = write_byte(*byte, text, next);
    }
    next
}

// Writes the last digit of a number.
fn write_digit(n: u64, text: &mut [u8], at: usize) -> usize
    requires { at < length text.old }
    ensures { Wrote text.old at (digit (n % 10) ∷ []) result text.new }
{
    write_byte(b'0' + (n % 10) as u8, text, at)
}

// Writes a plain decimal: the digits of a tenth, if there are any, and the last digit.
pub fn write_decimal(n: u64, text: &mut [u8], at: usize) -> usize
    requires { at + length (decimal n) ≤ length text.old }
    ensures { Wrote text.old at (decimal n) result text.new }
{
    if n < 10 {
        return write_digit(n, text, at);
    }
    let next = write_decimal(n / 10, text, at);
    write_digit(n, text, next)
}

// How long a plain decimal is. Of a number of one digit without a logarithm, which takes longer than the test.
#[tactic(auto, using(crate::proofs::Decimals::length_power, crate::proofs::Decimals::length_small))]
pub fn decimal_length(n: u64) -> usize
    ensures { (result ≡ length (decimal n)) × (result ≤ 20) }
{
    let power = if n <= 9 { 0 } else { n.ilog10() };
    power as usize + 1
}

// Writes a plain decimal, with a minus sign where negative.
pub fn write_signed(n: i64, text: &mut [u8], at: usize) -> usize
    requires { at + length (signed n) ≤ length text.old }
    ensures { Wrote text.old at (signed n) result text.new }
{
    if n < 0 {
        let next = write_byte(b'-', text, at);
        return write_decimal(n.unsigned_abs(), text, next);
    }
    write_decimal(n.unsigned_abs(), text, at)
}

// A number that is written as text. `write_decimal` and `write_signed` stand beside it, since they are public and promised.
pub trait Decimal: Copy {
    // the text of a number
    ghost shown: { Self → List ℕ };

    fn write(self, text: &mut [u8], at: usize) -> usize
        requires { at + length (shown self) ≤ length text.old }
        ensures { Wrote text.old at (shown self) result text.new };
}

// One body for three types: `usize` has no `Into<u64>`, and no macro may write an impl.
impl Decimal for u32 {
    ghost shown = { decimal };

    fn write(self, text: &mut [u8], at: usize) -> usize {
        write_decimal(u64::from(self), text, at)
    }
}

impl Decimal for u64 {
    ghost shown = { decimal };

    fn write(self, text: &mut [u8], at: usize) -> usize {
        write_decimal(self, text, at)
    }
}

impl Decimal for usize {
    ghost shown = { decimal };

    fn write(self, text: &mut [u8], at: usize) -> usize {
        write_decimal(self as u64, text, at)
    }
}

impl Decimal for i64 {
    ghost shown = { signed };

    fn write(self, text: &mut [u8], at: usize) -> usize {
        write_signed(self, text, at)
    }
}

// Writes the line of a key and a number.
pub fn write_line<N: Decimal>(key: &[u8], value: N, text: &mut [u8], at: usize) -> usize
    requires { at + length (line key.now (N.shown value)) ≤ length text.old }
    ensures { Wrote text.old at (line key.now (N.shown value)) result text.new }
{
    let equals = write_bytes(key, text, at);
    let start = write_byte(b'=', text, equals);
    let end = value.write(text, start);
    write_byte(b'\n', text, end)
}
