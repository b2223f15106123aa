// Lines of key=value read from a lent text. A function that reads something reads it from the start of a text, and answers it with the text
// that stands behind it, or nothing where it is not there.
ghost use Rattle.std.specs.Prelude.{[], ◌∷◌, ◌<◌};
ghost use Rattle.text.specs.Text.{digit, decimal, line};
ghost use Rattle.text.specs.Reading.{Small, Finds};
ghost use Rattle.text.specs.Inside.{closed};

// Reads a digit.
fn read_digit(text: &[u8]) -> Option<(u32, &[u8])>
    ensures { Finds (λ d. digit d ∷ []) (λ d. d < 10) text.now result }
{
    let (byte, behind) = text.split_first()?;
    if !byte.is_ascii_digit() {
        return None;
    }
    Some((u32::from(byte - b'0'), behind))
}

// Reads a plain decimal of 32 bits, and the line feed behind it.
fn read_decimal(text: &[u8]) -> Option<(u32, &[u8])>
    ensures { Finds closed Small text.now result }
{
    let (mut value, mut behind) = read_digit(text)?;
    if value == 0 {
        return Some((0, behind.strip_prefix(b"\n")?));
    }
    while let Some((digit, more)) = read_digit(behind) {
        let tens = value.checked_mul(10)?;
        value = tens.checked_add(digit)?;
        behind = more;
    }
    Some((value, behind.strip_prefix(b"\n")?))
}

// Reads the line of a key and a plain decimal of 32 bits. Always inlined, so that a key that is known costs a compare or two.
#[inline(always)]
pub fn read_decimal_line<'a>(key: &[u8], text: &'a [u8]) -> Option<(u32, &'a [u8])>
    ensures { Finds (λ n. line key.now (decimal n)) Small text.now result }
{
    let equals = text.strip_prefix(key)?;
    let value = equals.strip_prefix(b"=")?;
    read_decimal(value)
}
