// What is read of a line before it is judged.
ghost use Rattle.std.specs.Prelude.{◌<◌};

// What stands before the data of a line: how many bytes of data there are, their address, the type, and the sum of these bytes.
#[derive(Clone, Copy)]
pub(crate) struct Head {
    pub(crate) count: usize,
    pub(crate) address: usize,
    pub(crate) kind: usize,
    pub(crate) sum: usize,
    ghost small: { (count < 256) × (address < 4294967296) × (sum < 4294967296) },
}

// What the data of a line come to: their sum, and, if all of them are bytes, whether a cell had its byte before.
#[derive(Clone, Copy)]
pub(crate) struct Data {
    pub(crate) sum: usize,
    pub(crate) twice: bool,
    ghost small: { sum < 4294967296 },
}
