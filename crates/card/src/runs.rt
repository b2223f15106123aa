// The runs of a card, in two rows: whether they are in form, and what they add up to.
ghost use Rattle.std.specs.Prelude.{◌*◌, ◌≤◌, ◌≡◌, length};
ghost use Rattle.card.specs.Cards.{is_speed, all_speeds};
ghost use Rattle.card.specs.Refusals.{code_of};
ghost use Rattle.card.specs.Answers.{limit_fault, total, per_turn, time_of};

use super::Refusal;

// Whether it is one of the two speeds.
pub(crate) fn is_speed(speed: u32) -> bool
    ensures { result ≡ is_speed speed }
{
    matches!(speed, 33 | 45)
}

// Whether all of a row are.
pub(crate) fn are_speeds(speeds: &[u32]) -> bool
    ensures { result ≡ all_speeds speeds.now }
{
    speeds.iter().all(|speed| is_speed(*speed))
}

// What a card in form is refused for.
pub(crate) fn within_limits(allowed: u32, runs: usize) -> Result<(), Refusal>
    ensures { code_of result ≡ limit_fault allowed runs }
{
    if allowed < 1 {
        return Err(Refusal::AllowanceOutOfRange);
    }
    if 1000000 < allowed {
        return Err(Refusal::AllowanceOutOfRange);
    }
    if 64 < runs {
        return Err(Refusal::TooManyRuns);
    }
    Ok(())
}

// What a run takes, in fifteenths of a second.
fn run_time(speed: u32, turns: u32) -> u64
    ensures { (result ≡ per_turn speed * turns) × (result ≤ 27 * 4294967295) }
{
    if speed == 33 {
        return 27 * turns as u64;
    }
    20 * turns as u64
}

// The turns of some runs, and their cutting time.
#[derive(Clone, Copy)]
pub(crate) struct Cut {
    pub(crate) turns: u64,
    pub(crate) time: u64,
}

// What runs add up to.
pub(crate) fn cut_in(speeds: &[u32], turns: &[u32]) -> Cut
    requires { (length turns.now ≡ length speeds.now) × (length speeds.now ≤ 64) }
    ensures { (result.turns ≡ total turns.now) × (result.time ≡ time_of speeds.now turns.now) }
{
    let mut cut = Cut { turns: 0, time: 0 };
    for (speed, turned) in speeds.iter().zip(turns) {
        cut.turns += *turned as u64;
        cut.time += run_time(*speed, *turned);
    }
    cut
}
