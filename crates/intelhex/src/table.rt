// The table of what each sign counts, and bytes that are read by it as two digits.
ghost use Rattle.std.specs.Prelude.{◌≡◌, ◌+◌, ◌*◌, ◌<◌, ◌≤◌, length};
ghost use Rattle.intelhex.specs.Signs.{no_digit, value_of, byte_at};
ghost use Rattle.intelhex.specs.Laid.{Laid};

// What a sign counts that is no digit. So large a number shows in any sum, and a test for each sign would cost speed.
pub(crate) const NO_DIGIT: u32 = 131072;

// What each sign counts.
#[derive(Clone, Copy)]
pub(crate) struct Digits {
    values: [u32; 256],
    ghost laid: { Laid values },
}

impl Digits {
    pub(crate) fn new() -> Digits {
        let letters = [10, 11, 12, 13, 14, 15];
        let mut values = [NO_DIGIT; 256];
        values[48..58].copy_from_slice(&[0, 1, 2, 3, 4, 5, 6, 7, 8, 9]);
        values[65..71].copy_from_slice(&letters);
        values[97..103].copy_from_slice(&letters);
        Digits { values }
    }

    // What a sign counts.
    fn value(&self, sign: u8) -> usize
        ensures { (result ≡ value_of sign) × (result ≤ no_digit) }
    {
        self.values[usize::from(sign)] as usize
    }

    // The byte whose two digits stand at an index and the next one; 256 or more where one is no digit.
    pub(crate) fn byte_at(&self, text: &[u8], at: usize) -> usize
        requires { at + 1 < length text.now }
        ensures { (result ≡ byte_at text.now at) × (result ≤ 17 * no_digit) }
    {
        16 * self.value(text[at]) + self.value(text[at + 1])
    }
}
