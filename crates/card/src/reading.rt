// A text read as a card. A function that reads something reads it from the start of a text, and answers it with the text that stands
// behind it, or nothing where it is not there.
ghost use Rattle.std.specs.Prelude.{◌≡◌, Some, None, [], length, set, MatchOption};
ghost use Rattle.text.specs.Reading.{Found, Nowhere};
ghost use Rattle.card.specs.Doors.{in_places, laid_out, Told};
ghost use Rattle.card.specs.Inside.{empty, if_read, head_form, SmallHead, run_form, IsRun, rows_form, AreRuns, RowsAt};

use super::Card;
use super::runs::is_speed;
use text::reading::read_decimal_line;

// What stands before the runs.
#[derive(Clone, Copy)]
struct Head {
    fitted: u32,
    allowed: u32,
    runs: u32,
}

// A run.
#[derive(Clone, Copy)]
struct Run {
    speed: u32,
    turns: u32,
}

// Reads what stands before the runs.
fn read_head(text: &[u8]) -> Option<(Head, &[u8])>
    ensures { MatchOption result (Nowhere head_form SmallHead text.now) (λ p. Found head_form SmallHead text.now ((p.0.fitted, p.0.allowed), p.0.runs) p.1.now) }
{
    let (fitted, behind) = read_decimal_line(b"fitted", text)?;
    let (allowed, after) = read_decimal_line(b"allowed", behind)?;
    let (runs, rest) = read_decimal_line(b"runs", after)?;
    Some((
        Head {
            fitted,
            allowed,
            runs,
        },
        rest,
    ))
}

// Reads a run.
fn read_run(text: &[u8]) -> Option<(Run, &[u8])>
    ensures { MatchOption result (Nowhere run_form IsRun text.now) (λ p. Found run_form IsRun text.now (p.0.speed, p.0.turns) p.1.now) }
{
    let (speed, behind) = read_decimal_line(b"speed", text)?;
    if !is_speed(speed) {
        return None;
    }
    let (turns, rest) = read_decimal_line(b"turns", behind)?;
    Some((Run { speed, turns }, rest))
}

// Stores a value in a row, where that has a place for it. By a test and an index, since the proof by `get_mut` did not close.
fn keep(row: &mut [u32], at: usize, value: u32)
    ensures { row.new ≡ set row.old at value }
{
    if at < row.len() {
        row[at] = value;
    }
}

// Reads so many runs into places that have none yet. Those past the last place are read for their form, and not kept. The index is that of
// two rows, and goes past their ends.
fn read_runs<'a>(
    text: &'a [u8],
    runs: usize,
    speeds: &mut [u32],
    turns: &mut [u32],
) -> Option<&'a [u8]>
    requires { (speeds.old ≡ in_places []) × (turns.old ≡ in_places []) }
    ensures { MatchOption result (Nowhere rows_form (AreRuns runs) text.now) (λ rest. RowsAt text.now runs rest.now speeds.new turns.new) }
{
    let mut rest = text;
    for at in 0..runs {
        let (run, behind) = read_run(rest)?;
        keep(speeds, at, run.speed);
        keep(turns, at, run.turns);
        rest = behind;
    }
    Some(rest)
}

// Reads all of a text into an empty card, which may say then that it has more runs than places. It is lent, and not answered, since the
// archive for C has no function of the C library by which a card could be copied.
pub(crate) fn read_whole(text: &[u8], card: &mut Card) -> Option<()>
    requires { card.old ≡ empty }
    ensures { Told text.now (λ c. Some (laid_out c)) None (if_read result card.new) }
{
    let (head, behind) = read_head(text)?;
    card.fitted = head.fitted;
    card.allowed = head.allowed;
    card.runs = head.runs as usize;
    let rest = read_runs(behind, card.runs, &mut card.speeds, &mut card.turns)?;
    if !rest.is_empty() {
        return None;
    }
    Some(())
}
