// The trial doors (document 02, P6): an opening and a step with power for so many writes. The write behind these leaves the torn
// byte in place of its own, and the call ends with refusal 11. None of them asks anything of its caller.
ghost use Rattle.std.specs.Prelude.{◌≡◌, length};
ghost use Rattle.cells.specs.Chip.{chip};
ghost use Rattle.cells.specs.Cut.{cut};
ghost use Rattle.counter.specs.Layout.{two};
ghost use Rattle.counter.specs.Verdict.{outcome};
ghost use Rattle.counter.specs.Doors.{reopening};
ghost use Rattle.counter.specs.Trials.{cut_outcome, TrialOpens, TrialSteps};
ghost use Rattle.counter.specs.Inside.{standing_of};

use super::doors::{LAST_COUNT, begin, finished_on};
use super::layout::TWO;
use super::places::Places;
use super::reading::{examined, verdict_of};
use super::standing::{Standing, standing_of};
use super::store::{store_count, store_twice};
use super::verdict::{Answer, Refusal, refusal_of};
use cells::mains::Mains;

// Reads the count of a marked image with good settings, and stores it anew, by the plain way, which can be cut at any write.
fn reopen_on(image: &mut [u8], lives: &mut [u32], p: Places, mains: Mains) -> Answer
    requires { (length lives.old ≡ length image.old) × (standing_of two p image.old ≡ Standing.Marked) }
    ensures { outcome result (chip image.new lives.new) ≡ cut_outcome (cut mains.power mains.torn (reopening two p (chip image.old lives.old)) (chip image.old lives.old)) }
{
    match examined(image, p) {
        Ok(read) => {
            let stored = store_count(image, lives, p, TWO, read.count, mains);
            finished_on(Ok((read.count, read.lag)), stored)
        }
        Err(why) => refusal_of(why, 0, 0),
    }
}

// Opens a chip, with power for so many writes.
pub fn trial_open(image: &mut [u8], lives: &mut [u32], p: Places, mains: Mains) -> Answer
    ensures { TrialOpens p mains.power mains.torn (chip image.old lives.old) result (chip image.new lives.new) }
{
    if lives.len() != image.len() {
        return refusal_of(Refusal::BadLength, 0, 0);
    }
    match standing_of(image, p) {
        Standing::Unmarked => begin(image, lives, p, mains),
        Standing::Unfit(why) => refusal_of(why, 0, 0),
        Standing::Marked => reopen_on(image, lives, p, mains),
    }
}

// Steps the count by one, with power for so many writes.
pub fn trial_step(image: &mut [u8], lives: &mut [u32], p: Places, mains: Mains) -> Answer
    ensures { TrialSteps p mains.power mains.torn (chip image.old lives.old) result (chip image.new lives.new) }
{
    if lives.len() != image.len() {
        return refusal_of(Refusal::BadLength, 0, 0);
    }
    match verdict_of(image, p) {
        Ok(read) => {
            if read.count == LAST_COUNT {
                return refusal_of(Refusal::LastCount, 0, 0);
            }
            let stored = store_twice(image, lives, p, TWO, read.count, mains);
            finished_on(Ok((read.count + 1, read.lag)), stored)
        }
        Err(why) => refusal_of(why, 0, 0),
    }
}
