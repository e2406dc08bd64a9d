// The rule that bars nothing but a stroke before its last one.
ghost use Rattle.std.specs.Prelude.{◌≡◌, None};
ghost use Rattle.std.specs.Option.{unwrap_or};
ghost use Rattle.rules.specs.Rules.{open_rule};
ghost use Rattle.rules.specs.Values.{open_means};
ghost use Rattle.rules.specs.OpenLaws.{open_order, open_early, open_late, open_reach};
ghost use Rattle.std.proofs.Common.{rules};

use crate::opening::first_open;
use crate::rule::Rule;
use limits::{Refusal, up_to_last};

#[derive(Clone, Copy, Debug, PartialEq, Eq)]
pub struct OpenRule {
    last: Option<u64>,
}

impl OpenRule {
    // An open rule that was never struck.
    pub fn new() -> OpenRule
        ensures { open_means result ≡ open_rule None }
    {
        OpenRule { last: None }
    }

    // The tick before which it bars a stroke.
    fn opens(&self) -> u64
        ensures { result ≡ unwrap_or self.now.last 0 }
    {
        self.last.unwrap_or(0)
    }
}

impl Rule for OpenRule {
    ghost meaning = { open_means };

    ghost reaches = { λ _. 0 };

    ghost order = { λ r. open_order r.last };

    ghost early = { λ r. open_early r.last };

    ghost late = { λ r. open_late r.last };

    ghost reached = { λ r. open_reach r.last };

    ghost bounded = { Prim.search rules };

    fn may(&self, t: u64) -> bool {
        self.opens() <= t
    }

    fn earliest(&self, t: u64) -> Result<Option<u64>, Refusal> {
        first_open(t, self.opens())
    }

    fn strike(&mut self, t: u64) -> Result<(), Refusal> {
        up_to_last(t)?;
        if t < self.opens() {
            return Err(Refusal::NotAllowed);
        }
        self.last = Some(t);
        Ok(())
    }

    fn reach(&self) -> u64 {
        0
    }
}
