// A burst of requests: when is each stroke due?
ghost use Rattle.std.specs.Prelude.{◌≡◌};
ghost use Rattle.rules.specs.Bursts.{Burst};
ghost use Rattle.rules.specs.Examples.{WorkedExamples};
ghost use Rattle.limits.specs.Refusals.{told};

use crate::rule::Rule;
use limits::{Refusal, up_to_last};

// Asks for as many strokes as there are places, all at one tick, strikes the rule as early as it allows for each, and
// writes down the due ticks. Answers how many there are: fewer than places only where no tick up to the last one suits
// the next stroke.
pub fn burst<R: Rule>(rule: &mut R, asked: u64, due: &mut [u64]) -> Result<usize, Refusal>
    ensures burst { Burst (R.Rule.meaning rule.old) asked due.old (told result) due.new (R.Rule.meaning rule.new) }
    ensures reach { R.Rule.reaches rule.new ≡ R.Rule.reaches rule.old }
    ensures examples { WorkedExamples }
{
    up_to_last(asked)?;
    for (i, place) in due.iter_mut().enumerate() {
        let Some(tick) = rule.earliest(asked)? else {
            return Ok(i);
        };
        rule.strike(tick)?;
        *place = tick;
    }
    Ok(due.len())
}
