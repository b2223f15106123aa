// The turn counter over a lent EEPROM image (document 01). The stations of the data, in order: the place
// settings, the map, the spare cells and the ends between which they lie, reading and what was mended, the verdict and its answer,
// storing, the first opening, the four doors, and the trials of two of them, in which the mains are lost (document 02, P6).
#![tactic(auto)]

pub mod doors;
pub mod ends;
pub mod layout;
pub mod map;
pub mod mended;
pub mod opening;
pub mod places;
pub mod reading;
pub mod soundness;
pub mod spares;
pub mod standing;
pub mod store;
pub mod trials;
pub mod verdict;
