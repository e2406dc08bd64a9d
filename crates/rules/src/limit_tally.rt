// What remembers the strokes of a stair or of a table, and is made of one. Other tallies need not be of either kind.
ghost use Rattle.std.specs.Prelude.{◌≡◌, ◌↔◌, ℕ, List, IsTrue};
ghost use Rattle.limits.specs.Limits.{Limit, keeps, Keeps};
ghost use Rattle.rules.specs.Layers.{layered, longest_bar};
ghost use Rattle.rules.specs.Lots.{KeepsLots, Measured};
ghost use Rattle.rules.specs.Rules.{Meaning, laid, Order};

use crate::tally::Tally;

pub trait LimitTally: Tally {
    // The limit whose strokes it counts.
    type Limit;

    // a limit by its numbers
    ghost numbers: { Self.Limit → Limit };

    // the limit that was laid
    ghost limit_of: { Self → Self.Limit };

    // A limit to which no stroke was charged.
    fn new(limit: Self::Limit) -> Self
        ensures limit { limit_of result ≡ limit }
        ensures laid { (m : Meaning) → Order m → layered (Self.own result) m ≡ laid (numbers limit) m }
        ensures keeps { (ts : List ℕ) → IsTrue (keeps (numbers limit) ts) ↔ Keeps (numbers limit) ts }
        ensures span { Self.span result ≡ longest_bar (numbers limit) }
        ensures lots { KeepsLots (numbers limit) }
        ensures distances { Measured (numbers limit) };

    // The limit.
    fn limit(&self) -> Self::Limit
        ensures { result ≡ limit_of self.now };
}
