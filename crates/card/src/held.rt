// A card as its functions take it: its runs in two lent rows, since C lends two.
ghost use Rattle.std.specs.Prelude.{◌≤◌, length};

use super::runs::{are_speeds, within_limits};
use super::{Card, Refusal, Wear};

// It may say that it has more runs than its rows have.
#[derive(Clone, Copy)]
pub(crate) struct Held<'a> {
    pub(crate) fitted: u32,
    pub(crate) allowed: u32,
    pub(crate) runs: usize,
    pub(crate) speeds: &'a [u32],
    pub(crate) turns: &'a [u32],
    ghost within: { length speeds.now ≤ runs },
}

impl Card {
    ghost use Rattle.std.specs.Prelude.{◌≡◌};
    ghost use Rattle.card.specs.Doors.{card_in};
    ghost use Rattle.card.specs.Inside.{rows_of};

    // Lends a card, of its 64 places those that have a run.
    pub(crate) fn held(&self) -> Held<'_>
        ensures rows { rows_of result ≡ card_in self.now }
        ensures runs { result.runs ≡ self.now.runs }
    {
        let held = self.runs.min(64);
        Held {
            fitted: self.fitted,
            allowed: self.allowed,
            runs: self.runs,
            speeds: &self.speeds[..held],
            turns: &self.turns[..held],
        }
    }
}

impl Held<'_> {
    ghost use Rattle.std.specs.Prelude.{◌≡◌};
    ghost use Rattle.card.specs.Refusals.{code_of};
    ghost use Rattle.card.specs.Answers.{refused, answered, fault_of};
    ghost use Rattle.card.specs.Inside.{rows_of};

    // What a card is refused for by itself.
    pub(crate) fn check(&self) -> Result<(), Refusal>
        ensures { code_of result ≡ fault_of self.now.runs (rows_of self.now) }
    {
        if self.turns.len() != self.speeds.len() {
            return Err(Refusal::NotInForm);
        }
        if !are_speeds(self.speeds) {
            return Err(Refusal::NotInForm);
        }
        within_limits(self.allowed, self.runs)
    }

    // What a card answers where there is no count.
    pub(crate) fn unworn(&self) -> Result<Wear, Refusal>
        ensures { answered result ≡ refused (fault_of self.now.runs (rows_of self.now)) }
    {
        self.check()?;
        Ok(Wear {
            used: 0,
            left: 0,
            time: 0,
        })
    }
}
