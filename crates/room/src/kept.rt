// The kept doors (document 02, P8): each answers what the plain door or its trial answers, and the ends of the map afterwards, so that the
// caller has the room from two numbers at every turn. None asks anything of its caller, and the ends that are passed in may be any.
ghost use Rattle.std.specs.Prelude.{◌≡◌};
ghost use Rattle.cells.specs.Chip.{chip};
ghost use Rattle.counter.specs.Layout.{two};
ghost use Rattle.counter.specs.Verdict.{outcome};
ghost use Rattle.room.specs.Kept.{kept, may_have_moved, ends_after, kept_open_of, kept_step_of, kept_trial_open_of, kept_trial_step_of};

use cells::mains::Mains;
use counter::ends::{Ends, ends_of};
use counter::places::Places;
use counter::verdict::Answer;
use counter::{doors, trials};

// An answer, and the ends of the map afterwards.
#[derive(Clone, Copy)]
pub struct Kept {
    pub answer: Answer,
    pub ends: Ends,
}

// The code of a call in which a map byte was not taken, and of one that lost its power. Numbers, since C gets an answer's code as one.
const MAP_BYTE_FAILED: u32 = 9;

const POWER_LOST: u32 = 11;

// Whether a step that answered so may have moved a pointer: a spare was tried, a map byte was not taken, or the power was lost.
fn may_have_moved(answer: Answer) -> bool
    ensures { result ≡ may_have_moved answer }
{
    0 < answer.tried || answer.code == MAP_BYTE_FAILED || answer.code == POWER_LOST
}

// The ends behind a step that answered so: those before it, unless it may have moved a pointer.
fn ends_behind(answer: Answer, before: Ends, image: &[u8], p: Places) -> Ends
    ensures { result ≡ ends_after two p before answer image.now }
{
    if may_have_moved(answer) {
        return ends_of(image, p);
    }
    before
}

// The doors are alike in pairs, but of two statements each, so that a function for what two share would be no plainer. An image and its
// lives are two slices, as C lends them.

// Opens a chip, and works out the ends of its map.
pub fn kept_open(image: &mut [u8], lives: &mut [u32], p: Places) -> Kept
    ensures { kept (outcome result.answer (chip image.new lives.new)) result.ends ≡ kept_open_of two p (chip image.old lives.old) }
{
    let answer = doors::open(image, lives, p);
    Kept {
        answer,
        ends: ends_of(image, p),
    }
}

// Steps the count by one, and keeps the ends of the map.
pub fn kept_step(image: &mut [u8], lives: &mut [u32], p: Places, before: Ends) -> Kept
    ensures { kept (outcome result.answer (chip image.new lives.new)) result.ends ≡ kept_step_of two p before (chip image.old lives.old) }
{
    let answer = doors::step(image, lives, p);
    Kept {
        answer,
        ends: ends_behind(answer, before, image, p),
    }
}

// Opens a chip, with power for so many writes, and works out the ends of its map.
pub fn kept_trial_open(image: &mut [u8], lives: &mut [u32], p: Places, mains: Mains) -> Kept
    ensures { kept (outcome result.answer (chip image.new lives.new)) result.ends ≡ kept_trial_open_of two p mains.power mains.torn (chip image.old lives.old) }
{
    let answer = trials::trial_open(image, lives, p, mains);
    Kept {
        answer,
        ends: ends_of(image, p),
    }
}

// Steps the count by one, with power for so many writes, and keeps the ends of the map.
pub fn kept_trial_step(
    image: &mut [u8],
    lives: &mut [u32],
    p: Places,
    mains: Mains,
    before: Ends,
) -> Kept
    ensures { kept (outcome result.answer (chip image.new lives.new)) result.ends ≡ kept_trial_step_of two p mains.power mains.torn before (chip image.old lives.old) }
{
    let answer = trials::trial_step(image, lives, p, mains);
    Kept {
        answer,
        ends: ends_behind(answer, before, image, p),
    }
}
