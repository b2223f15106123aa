// What a card answers at a count.
ghost use Rattle.std.specs.Prelude.{◌≡◌};
ghost use Rattle.card.specs.Answers.{answered, answer_of};
ghost use Rattle.card.specs.Inside.{rows_of};

use super::held::Held;
use super::runs::cut_in;
use super::{Refusal, Wear};

impl Held<'_> {
    // What a card answers.
    pub(crate) fn answer(&self, count: u32) -> Result<Wear, Refusal>
        ensures { answered result ≡ answer_of self.now.runs (rows_of self.now) count }
    {
        self.check()?;
        if count < self.fitted {
            return Err(Refusal::CountBelowFitted);
        }
        let used = count - self.fitted;
        let cut = cut_in(self.speeds, self.turns);
        if cut.turns != used as u64 {
            return Err(Refusal::RunsApart);
        }
        Ok(Wear {
            used,
            left: self.allowed as i64 - used as i64,
            time: cut.time,
        })
    }
}
