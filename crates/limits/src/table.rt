// The table as a value: how far a stroke has to lie from each of those before it.
ghost use Rattle.std.specs.Prelude.{◌≡◌, ◌≤◌, length, IsTrue};
ghost use Rattle.limits.specs.Limits.{largest};
ghost use Rattle.limits.specs.RowNumbers.{in_row};
ghost use Rattle.limits.specs.Strokes.{longest, never_falls};
ghost use Rattle.limits.specs.declared.table.TheConstants.{MOST_DISTANCES};

use crate::refusal::Refusal;
use crate::row::Row;
use crate::tick::LONGEST;

// The most distances that a table takes.
pub const MOST_DISTANCES: usize = 16;

#[derive(Clone, Copy, Debug, PartialEq, Eq)]
pub struct Table {
    distances: Row<MOST_DISTANCES>,
    ghost few: { length (in_row distances) ≤ MOST_DISTANCES },
    ghost rising: { IsTrue (never_falls (in_row distances)) },
    ghost short: { largest (in_row distances) ≤ longest },
}

impl Table {
    ghost use Rattle.std.specs.Prelude.{[], ◌∷◌, ◌++◌, MatchResult};
    ghost use Rattle.limits.specs.Making.{distance_taken};
    ghost use Rattle.limits.specs.Refusals.{told};
    ghost use Rattle.limits.specs.Values.{given};

    // A table with no distances.
    pub fn new() -> Table
        ensures { given result ≡ [] }
    {
        Table {
            distances: Row::new(),
        }
    }

    // Takes one more distance, if there is room for it, it is in range and does not fall. A refusal leaves the table as it was.
    pub fn push(&mut self, distance: u64) -> Result<(), Refusal>
        ensures answer { told result ≡ distance_taken (given self.old) distance }
        ensures left { MatchResult result (λ _. given self.new ≡ given self.old ++ distance ∷ []) (λ _. self.new ≡ self.old) }
    {
        if self.distances.is_full() {
            return Err(Refusal::Full);
        }
        if distance > LONGEST || distance < self.largest() {
            return Err(Refusal::OutOfRange);
        }
        self.distances.push(distance);
        Ok(())
    }

    // The distances, the nearest stroke's first.
    pub fn distances(&self) -> &[u64]
        ensures { result.now ≡ given self.now }
    {
        self.distances.as_slice()
    }

    // The largest distance, 0 if there is none: since distances never fall, the last one.
    pub fn largest(&self) -> u64
        ensures { result ≡ largest (given self.now) }
    {
        self.distances().last().copied().unwrap_or(0)
    }
}
