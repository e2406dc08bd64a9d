// What a stair remembers: one number, the tick at which its burst is whole again.
//
// The number w starts at 0, and a stroke at t turns it into max(t, w) + p, where p is the period. With the burst N, tick t
// is open to the next stroke when w + p <= t + N * p. That is all the past there is: nothing runs out, nothing is reset,
// and a gap of years counts for as long as it was.
ghost use Rattle.std.specs.Prelude.{◌≡◌, ◌+◌, ◌*◌, ◌≤◌};
ghost use Rattle.limits.specs.Values.{burst_of, period_of};
ghost use Rattle.limits.specs.Strokes.{last_tick};

use crate::limit_tally::LimitTally;
use crate::tally::Tally;
use limits::{LAST_TICK, Stair};

#[derive(Clone, Copy, Debug, PartialEq, Eq)]
pub struct StairTally {
    stair: Stair,
    whole: u64,
    ghost soon: { whole ≤ last_tick + burst_of stair * period_of stair },
}

impl Tally for StairTally {
    ghost use Rattle.rules.specs.StairLaws.{stair_begins, stair_early, stair_late, stair_reach};
    ghost use Rattle.rules.specs.Values.{stair_tally_own, stair_tally_span};

    ghost own = { stair_tally_own };

    ghost span = { stair_tally_span };

    ghost begins = { λ s. stair_begins s.stair.burst s.stair.period s.whole };

    ghost early = { λ s. stair_early s.stair.burst s.stair.period s.whole };

    ghost late = { λ s. stair_late s.stair.burst s.stair.period s.whole };

    ghost reached = { λ s. stair_reach s.stair.burst s.stair.period s.whole s.stair.some };

    ghost bounded = { λ s. s.stair.short };

    fn opens(&self) -> u64 {
        let spent = self.whole + self.stair.period();
        spent.saturating_sub(self.stair.burst() * self.stair.period())
    }

    fn after(&self, t: u64) -> Option<StairTally> {
        if t > LAST_TICK || t < self.opens() {
            return None;
        }
        Some(StairTally {
            stair: self.stair,
            whole: t.max(self.whole) + self.stair.period(),
        })
    }

    fn span(&self) -> u64 {
        self.stair.period()
    }
}

impl LimitTally for StairTally {
    ghost use Rattle.std.specs.Prelude.{◌↔◌, ℕ, List, IsTrue};
    ghost use Rattle.limits.specs.Limits.{keeps, KeepsStair};
    ghost use Rattle.limits.specs.Values.{stair_of};
    ghost use Rattle.rules.specs.Layers.{layered, stair_own};
    ghost use Rattle.rules.specs.Lots.{FirstLot, SecondLot};
    ghost use Rattle.rules.specs.Rules.{Meaning, Order, laid};
    ghost use Rattle.rules.specs.Values.{stair_tally_limit, stair_tally_own, stair_tally_span};

    type Limit = Stair;

    ghost numbers = { stair_of };

    ghost limit_of = { stair_tally_limit };

    fn new(stair: Stair) -> StairTally
        ensures limit { stair_tally_limit result ≡ stair }
        ensures laid { (m : Meaning) → Order m → layered (stair_tally_own result) m ≡ laid (stair_of stair) m }
        ensures keeps { (ts : List ℕ) → IsTrue (keeps (stair_of stair) ts) ↔ KeepsStair (burst_of stair) (period_of stair) ts }
        ensures span { stair_tally_span result ≡ period_of stair }
        ensures lots { (w : ℕ) → FirstLot (layered (stair_own (burst_of stair) (period_of stair) w)) × SecondLot (layered (stair_own (burst_of stair) (period_of stair) w)) (period_of stair) }
    {
        StairTally { stair, whole: 0 }
    }

    fn limit(&self) -> Stair {
        self.stair
    }
}
