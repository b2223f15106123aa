// What stands in a cell and what it means: the sixteen codes, the readings of a byte and the bits that were mended, Gray words and
// their nibbles. Nothing here knows of images, maps or wear.
#![tactic(auto)]

pub mod codes;
pub mod gray;
pub mod mended;
pub mod nibbles;
pub mod reading;
pub mod table;
