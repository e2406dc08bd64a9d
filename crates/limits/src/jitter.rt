// Jittered orders: strokes that come once in each period, each up to a jitter late, and some least distance apart.
ghost use Rattle.std.specs.Prelude.{◌≡◌};
ghost use Rattle.limits.specs.Jitter.{jittered};
ghost use Rattle.limits.specs.Refusals.{told_by};
ghost use Rattle.limits.specs.Values.{jitter_of, stair_of};

use crate::refusal::Refusal;
use crate::stair::Stair;
use crate::tick::LONGEST;

// The two stairs of a jittered order. A keyboard or a chime drum that keeps the order keeps both.
#[derive(Clone, Copy, Debug, PartialEq, Eq)]
pub struct JitteredOrder {
    first: Stair,
    second: Stair,
}

impl JitteredOrder {
    // The order with this period, jitter and least distance, if they are in range and the first burst fits a stair.
    pub fn new(period: u64, jitter: u64, distance: u64) -> Result<JitteredOrder, Refusal>
        ensures { told_by jitter_of result ≡ jittered period jitter distance }
    {
        if !(1..=LONGEST).contains(&period) || jitter > LONGEST || distance > LONGEST {
            return Err(Refusal::OutOfRange);
        }
        let first = Stair::new(jitter.div_ceil(period) + 1, period)?;
        let second = if distance > 0 && distance + jitter > period {
            Stair::new(1, distance)?
        } else {
            first
        };
        Ok(JitteredOrder { first, second })
    }

    // The first stair: how many strokes can come together.
    pub fn first(&self) -> Stair
        ensures { stair_of result ≡ (jitter_of self.now).0 }
    {
        self.first
    }

    // The second stair: how far strokes lie apart at least, or the first stair again.
    pub fn second(&self) -> Stair
        ensures { stair_of result ≡ (jitter_of self.now).1 }
    {
        self.second
    }
}
