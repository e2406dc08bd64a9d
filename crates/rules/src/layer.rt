// A limit on any rule. Any limit, with whatever strokes it remembers, and any rule make a rule.
ghost use Rattle.std.specs.Prelude.{◌≡◌, ◌↔◌, ℕ, max, List, IsTrue};
ghost use Rattle.limits.specs.Limits.{Keeps};
ghost use Rattle.rules.specs.Layers.{longest_bar};
ghost use Rattle.rules.specs.Lots.{KeepsLots, Measured};
ghost use Rattle.rules.specs.Rules.{laid};
ghost use Rattle.rules.specs.Values.{layer_means, layer_reach};
ghost use Rattle.rules.specs.LayerLaws.{layered_order, layered_early, layered_late, layered_reach};
ghost use Rattle.std.proofs.Common.{rules};

use crate::limit_tally::LimitTally;
use crate::opening::first_open;
use crate::rule::Rule;
use crate::stair_tally::StairTally;
use crate::table_tally::TableTally;
use crate::tally::Tally;
use limits::{Refusal, up_to_last};

#[derive(Clone, Copy, Debug, PartialEq, Eq)]
pub struct Layer<T, R> {
    pub tally: T,
    pub below: R,
}

// A stair on a rule.
pub type StairOn<R> = Layer<StairTally, R>;

// A table on a rule.
pub type TableOn<R> = Layer<TableTally, R>;

impl<T: LimitTally, R: Rule> Layer<T, R> {
    // Lays a limit on a rule, which may have been struck before.
    pub fn new(limit: T::Limit, below: R) -> Layer<T, R>
        ensures limit { T.LimitTally.limit_of result.tally ≡ limit }
        ensures below { result.below ≡ below }
        ensures laid { layer_means T.Tally.own R.Rule.meaning result ≡ laid (T.LimitTally.numbers limit) (R.Rule.meaning below) }
        ensures keeps { (ts : List ℕ) → IsTrue ((layer_means T.Tally.own R.Rule.meaning result).allows ts) ↔ (IsTrue ((R.Rule.meaning below).allows ts) × Keeps (T.LimitTally.numbers limit) ts) }
        ensures reach { layer_reach T.Tally.span R.Rule.reaches result ≡ max (R.Rule.reaches below) (longest_bar (T.LimitTally.numbers limit)) }
        ensures lots { KeepsLots (T.LimitTally.numbers limit) }
        ensures distances { Measured (T.LimitTally.numbers limit) }
    {
        Layer {
            tally: T::new(limit),
            below,
        }
    }
}

impl<T: Tally, R: Rule> Rule for Layer<T, R> {
    ghost meaning = { layer_means T.Tally.own R.Rule.meaning };

    ghost reaches = { layer_reach T.Tally.span R.Rule.reaches };

    ghost order = { λ l. layered_order (T.Tally.own l.tally) (R.Rule.meaning l.below) (T.Tally.begins l.tally) (R.Rule.order l.below) };

    ghost early = { λ l. layered_early (T.Tally.own l.tally) (R.Rule.meaning l.below) (T.Tally.early l.tally) (R.Rule.early l.below) };

    ghost late = { λ l. layered_late (T.Tally.own l.tally) (R.Rule.meaning l.below) (T.Tally.late l.tally) (R.Rule.late l.below) };

    ghost reached = { λ l.
        layered_reach (T.Tally.own l.tally) (R.Rule.meaning l.below) (T.Tally.span l.tally) (R.Rule.reaches l.below)
        (T.Tally.late l.tally) (T.Tally.reached l.tally) (R.Rule.late l.below) (R.Rule.reached l.below) };

    ghost bounded = { Prim.search rules };

    fn may(&self, t: u64) -> bool {
        self.tally.opens() <= t && self.below.may(t)
    }

    // A tick past the last one is refused before the limit looks.
    fn earliest(&self, t: u64) -> Result<Option<u64>, Refusal> {
        up_to_last(t)?;
        let Some(from) = first_open(t, self.tally.opens())? else {
            return Ok(None);
        };
        self.below.earliest(from)
    }

    // The limit looks first, then the rule below is struck, and only then is the stroke charged to the limit.
    fn strike(&mut self, t: u64) -> Result<(), Refusal> {
        up_to_last(t)?;
        let charged = self.tally.after(t).ok_or(Refusal::NotAllowed)?;
        self.below.strike(t)?;
        self.tally = charged;
        Ok(())
    }

    fn reach(&self) -> u64 {
        self.below.reach().max(self.tally.span())
    }
}
