// How an image stands before its map is looked at: the first three tests of every door (document 01, "What comes
// back").
ghost use Rattle.std.specs.Prelude.{◌≡◌};
ghost use Rattle.counter.specs.Layout.{two};
ghost use Rattle.counter.specs.Inside.{standing_of};

use super::map::{Map, is_marked};
use super::places::{Places, length_good, places_good};
use super::verdict::Refusal;

// Refused for its length or the settings, without a mark, or marked.
#[derive(Clone, Copy)]
pub enum Standing {
    Unfit(Refusal),
    Unmarked,
    Marked,
}

// How an image stands.
pub(crate) fn standing_of(image: &[u8], p: Places) -> Standing
    ensures { result ≡ standing_of two p image.now }
{
    if !length_good(image.len()) {
        Standing::Unfit(Refusal::BadLength)
    } else if !places_good(image.len(), p) {
        Standing::Unfit(Refusal::BadPlaces)
    } else if is_marked(Map::at(p.map).cells(image)) {
        Standing::Marked
    } else {
        Standing::Unmarked
    }
}
