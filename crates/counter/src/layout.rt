// How a count is laid out on a chip. Storing and opening go by a layout that they are given; the doors' is that of two copies.

// How often the count is kept.
#[derive(Clone, Copy)]
pub struct Layout {
    pub copies: usize,
}

// The layout of the doors.
pub(crate) const TWO: Layout = Layout { copies: 2 };
