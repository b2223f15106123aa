// What a call comes to, and the answer that says so (document 01, "What comes back").

ghost use Rattle.std.specs.Prelude.{◌≡◌};
ghost use Rattle.counter.specs.Verdict.{refused, refusal_of, answer_of};

// Why a call is refused.
#[derive(Clone, Copy)]
pub enum Refusal {
    BadLength,
    BadPlaces,
    NoMark,
    UnsoundMap,
    BadCopy,
    // the nibble
    TwoCodes(usize),
    // the nibble
    LostNibble(usize),
    // the lag
    Apart(i64),
    LastCount,
    // the slot: the nibble, plus 8 in copy 2
    NoSpare(usize),
    // its address
    MapByte(usize),
    // the address of the torn write
    PowerLost(usize),
}

// How a call ended: with a count and the lag that was read, or refused.
pub type Verdict = Result<(u32, i64), Refusal>;

// How a piece of storing ended.
pub type Work = Result<(), Refusal>;

// What comes back from a door. The code is a number, as `refusal_of` of specs, its theorems and C have it.
#[derive(Clone, Copy)]
pub struct Answer {
    pub code: u32,
    pub count: u32,
    pub lag: i64,
    pub place: usize,
    pub writes: usize,
    pub tried: usize,
}

// A refusal: count 0 and lag 0, with nothing written and nothing tried.
fn refused(code: u32, place: usize) -> Answer
    ensures { result ≡ refused code place }
{
    Answer {
        code,
        count: 0,
        lag: 0,
        place,
        writes: 0,
        tried: 0,
    }
}

// The answer of a refused call, with its number in document 01.
pub(crate) fn refusal_of(why: Refusal, writes: usize, tried: usize) -> Answer
    ensures { result ≡ refusal_of why writes tried }
{
    match why {
        Refusal::BadLength => refused(1, 0),
        Refusal::BadPlaces => refused(2, 0),
        Refusal::NoMark => refused(3, 0),
        Refusal::UnsoundMap => refused(4, 0),
        Refusal::BadCopy => refused(16, 0),
        Refusal::TwoCodes(nibble) => refused(10, nibble),
        Refusal::LostNibble(nibble) => refused(5, nibble),
        Refusal::Apart(lag) => Answer {
            code: 6,
            count: 0,
            lag,
            place: 0,
            writes: 0,
            tried: 0,
        },
        Refusal::LastCount => refused(7, 0),
        Refusal::NoSpare(slot) => Answer {
            code: 8,
            count: 0,
            lag: 0,
            place: slot,
            writes,
            tried,
        },
        Refusal::MapByte(address) => Answer {
            code: 9,
            count: 0,
            lag: 0,
            place: address,
            writes,
            tried,
        },
        Refusal::PowerLost(address) => refused(11, address),
    }
}

// The answer of a call that ended so, after so many writes and tries.
pub(crate) fn answer_of(verdict: Verdict, writes: usize, tried: usize) -> Answer
    ensures { result ≡ answer_of verdict writes tried }
{
    match verdict {
        Ok((count, lag)) => Answer {
            code: 0,
            count,
            lag,
            place: 0,
            writes,
            tried,
        },
        Err(why) => refusal_of(why, writes, tried),
    }
}
