// Ticks: one is a millisecond.
ghost use Rattle.std.specs.Prelude.{◌≡◌};
ghost use Rattle.limits.specs.Making.{tick_taken};
ghost use Rattle.limits.specs.Refusals.{told};

use crate::refusal::Refusal;

// The last tick.
pub const LAST_TICK: u64 = 1_000_000_000_000;

// The longest period, the largest distance and the largest reach, in ticks.
pub const LONGEST: u64 = 1_000_000_000;

// Refuses a tick past the last one.
pub fn up_to_last(t: u64) -> Result<(), Refusal>
    ensures { told result ≡ tick_taken t }
{
    if t > LAST_TICK {
        return Err(Refusal::PastLastTick);
    }
    Ok(())
}
