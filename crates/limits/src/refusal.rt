// Why a call was refused.
ghost use Rattle.std.specs.Prelude.{◌≡◌, Some};
ghost use Rattle.limits.specs.Refusals.{number, words};

use std::error::Error;
use std::fmt;

#[derive(Clone, Copy, PartialEq, Eq, Debug)]
pub enum Refusal {
    // No bell has that number.
    NoBell = 1,
    // A tick past the last one.
    PastLastTick = 2,
    // One of the numbers of a limit is not in its range, or a table's distances get smaller.
    OutOfRange = 3,
    // A tick before the bell's clock.
    BeforeClock = 11,
    // No room: a table has its sixteen distances, or thirty-two strokes wait at a bell.
    Full = 12,
    // No tick up to the last one suits.
    NoTick = 13,
    // A rule blocks the stroke.
    NotAllowed = 14,
}

impl Refusal {
    // The number by which the refusal is told.
    pub fn number(self) -> u64
        ensures { result ≡ number self }
    {
        self as u64
    }

    // The refusal in words, as it is printed.
    pub fn words(self) -> &'static str
        ensures { result.now ≡ words self }
    {
        match self {
            Refusal::NoBell => "there is no such bell",
            Refusal::PastLastTick => "the tick is past the last one",
            Refusal::OutOfRange => "a number is out of range",
            Refusal::BeforeClock => "the tick is before the bell's clock",
            Refusal::Full => "there is no more room",
            Refusal::NoTick => "no tick up to the last one suits",
            Refusal::NotAllowed => "the rule blocks the stroke",
        }
    }
}

// The words have a contract of their own; this writes them.
impl fmt::Display for Refusal {
    ghost output = { λ r. Some (words r) };

    fn fmt<W: fmt::Write>(&self, f: &mut fmt::Formatter<W>) -> fmt::Result {
        f.write_str(self.words())
    }
}

impl Error for Refusal {}
