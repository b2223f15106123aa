// A card written as its text. Each function that writes asks for room for what it writes into a lent text, and answers the index past it.
ghost use Rattle.std.specs.Prelude.{◌+◌, ◌*◌, ◌≤◌, ◌≡◌, true, length};
ghost use mathlib.Core.List.{flatten};
ghost use Rattle.text.specs.Text.{Wrote};
ghost use Rattle.card.specs.Cards.{head_text, run_text, run_texts, text_of, formed};
ghost use Rattle.card.specs.Doors.{left_by, write_of};
ghost use Rattle.card.specs.Inside.{rows_of, run_length, runs_length};

use super::Refusal;
use super::held::Held;

// How long the lines before the runs are.
fn head_length(fitted: u32, allowed: u32, runs: usize) -> usize
    ensures { (result ≡ length (head_text fitted allowed runs)) × (result ≤ 83) }
{
    let first = text::decimal_length(fitted as u64);
    let second = text::decimal_length(allowed as u64);
    let third = text::decimal_length(runs as u64);
    23 + first + second + third
}

// How long the lines of a run are: its speed has two digits.
fn run_length(turns: u32) -> usize
    ensures { (result ≡ run_length turns) × (result ≤ 36) }
{
    16 + text::decimal_length(turns as u64)
}

// How long those of all runs are.
fn runs_length(turns: &[u32]) -> usize
    requires { length turns.now ≤ 64 }
    ensures { (result ≡ runs_length turns.now) × (result ≤ 64 * 36) }
{
    turns.iter().map(|turned| run_length(*turned)).sum()
}

// Writes the lines before the runs at the start of a text.
fn write_head(fitted: u32, allowed: u32, runs: usize, text: &mut [u8]) -> usize
    requires { length (head_text fitted allowed runs) ≤ length text.old }
    ensures { Wrote text.old 0 (head_text fitted allowed runs) result text.new }
{
    let first = text::write_line(b"fitted", fitted, text, 0);
    let second = text::write_line(b"allowed", allowed, text, first);
    text::write_line(b"runs", runs, text, second)
}

// Writes the lines of a run.
fn write_run(speed: u32, turns: u32, text: &mut [u8], at: usize) -> usize
    requires { at + length (run_text speed turns) ≤ length text.old }
    ensures { Wrote text.old at (run_text speed turns) result text.new }
{
    let next = text::write_line(b"speed", speed, text, at);
    text::write_line(b"turns", turns, text, next)
}

// Writes the lines of all runs.
fn write_runs(speeds: &[u32], turns: &[u32], text: &mut [u8], at: usize) -> usize
    requires { (length turns.now ≡ length speeds.now) × (at + length (flatten (run_texts speeds.now turns.now)) ≤ length text.old) }
    ensures { Wrote text.old at (flatten (run_texts speeds.now turns.now)) result text.new }
{
    let mut next = at;
    for (speed, turned) in speeds.iter().zip(turns) {
        next = write_run(*speed, *turned, text, next);
    }
    next
}

impl Held<'_> {
    // How long the text of a card in form is.
    fn length(&self) -> usize
        requires form { formed (rows_of self.now) ≡ true }
        requires few { length self.now.speeds.now ≤ 64 }
        ensures { result ≡ length (text_of (rows_of self.now)) }
    {
        head_length(self.fitted, self.allowed, self.speeds.len()) + runs_length(self.turns)
    }

    // Writes the text of a card in form.
    fn write_text(&self, text: &mut [u8]) -> usize
        requires form { formed (rows_of self.now) ≡ true }
        requires room { length (text_of (rows_of self.now)) ≤ length text.old }
        ensures { Wrote text.old 0 (text_of (rows_of self.now)) result text.new }
    {
        let next = write_head(self.fitted, self.allowed, self.speeds.len(), text);
        write_runs(self.speeds, self.turns, text, next)
    }

    // Writes a card, if there is room for all of its text.
    pub(crate) fn write(&self, text: &mut [u8]) -> Result<usize, Refusal>
        ensures { left_by result text.new ≡ write_of self.now.runs (rows_of self.now) text.old }
    {
        self.check()?;
        if text.len() < self.length() {
            return Err(Refusal::RoomTooShort);
        }
        Ok(self.write_text(text))
    }
}
