// The length that the argument asks for.
ghost use Rattle.std.specs.Prelude.{◌≤◌, ◌≡◌};
ghost use Rattle.fromhex.specs.Lengths.{too_long, with_digit, length_of};

// A length that no image has, for all that are larger: so a long number does not wrap. A number, as `too_long` of specs is.
pub(crate) const TOO_LONG: usize = 4097;

// A number with one digit more.
#[tactic(auto, using(crate::proofs::Digits::below_digits, crate::proofs::Digits::above_digits, crate::proofs::Digits::at_digit))]
fn with_digit(n: usize, byte: u8) -> usize
    requires { n ≤ too_long }
    ensures { (result ≡ with_digit n byte) × (result ≤ too_long) }
{
    if byte < b'0' {
        return TOO_LONG;
    }
    if b'9' < byte {
        return TOO_LONG;
    }
    let more = 10 * n + usize::from(byte - b'0');
    if TOO_LONG < more {
        return TOO_LONG;
    }
    more
}

// The number that digits come to, or a length that no image has where it is larger or a byte is no digit.
pub(crate) fn asked(digits: &[u8]) -> usize
    ensures { (result ≡ length_of digits.now) × (result ≤ too_long) }
{
    let mut n = 0;
    for byte in digits {
        n = with_digit(n, *byte);
    }
    n
}
