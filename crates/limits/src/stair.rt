// The stair as a value: a burst of strokes, and one more for each period.
ghost use Rattle.std.specs.Prelude.{◌≡◌, ◌≤◌};
ghost use Rattle.limits.specs.Strokes.{longest};
ghost use Rattle.limits.specs.declared.stair.TheConstants.{LARGEST_BURST};

use crate::refusal::Refusal;
use crate::tick::LONGEST;

// The largest burst of a stair.
const LARGEST_BURST: u64 = 255;

#[derive(Clone, Copy, Debug, PartialEq, Eq)]
pub struct Stair {
    burst: u64,
    period: u64,
    ghost some: { 1 ≤ burst },
    ghost few: { burst ≤ LARGEST_BURST },
    ghost lasts: { 1 ≤ period },
    ghost short: { period ≤ longest },
}

impl Stair {
    ghost use Rattle.limits.specs.Making.{stair_made};
    ghost use Rattle.limits.specs.Refusals.{told_by};
    ghost use Rattle.limits.specs.Values.{burst_of, period_of, stair_of};

    // A stair with the given burst and period, if both are in range.
    pub fn new(burst: u64, period: u64) -> Result<Stair, Refusal>
        ensures { told_by stair_of result ≡ stair_made burst period }
    {
        if !(1..=LARGEST_BURST).contains(&burst) || !(1..=LONGEST).contains(&period) {
            return Err(Refusal::OutOfRange);
        }
        Ok(Stair { burst, period })
    }

    // How many strokes may come at once.
    pub fn burst(&self) -> u64
        ensures { result ≡ burst_of self.now }
    {
        self.burst
    }

    // For how many ticks there is one stroke more.
    pub fn period(&self) -> u64
        ensures { result ≡ period_of self.now }
    {
        self.period
    }
}
