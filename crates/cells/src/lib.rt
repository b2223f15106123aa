// A chip as lent: an image of bytes, and beside it the good writes left in each cell. What can be asked
// of it: to put a byte, to put it along a row of cells until one holds, to put a row of bytes; and all of it on
// mains that can be lost in a write. Nothing here knows of maps, copies or counts.
#![tactic(auto)]

pub mod mains;
pub mod put;
pub mod row;
