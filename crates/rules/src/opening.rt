// Which tick is the first open one, where all ticks before some number are barred?
ghost use Rattle.std.specs.Prelude.{◌≡◌};
ghost use Rattle.limits.specs.Refusals.{told};
ghost use Rattle.rules.specs.Calls.{first_open};

use limits::{LAST_TICK, Refusal, up_to_last};

// The first tick from t on that is not before `opens`, or none up to the last tick.
pub(crate) fn first_open(t: u64, opens: u64) -> Result<Option<u64>, Refusal>
    ensures { told result ≡ first_open t opens }
{
    up_to_last(t)?;
    let from = t.max(opens);
    Ok((from <= LAST_TICK).then_some(from))
}
