// What a table remembers: as many of its last strokes as it has distances, the newest first.
ghost use Rattle.std.specs.Prelude.{◌≡◌, ◌≤◌, length};
ghost use Rattle.limits.specs.Limits.{largest};
ghost use Rattle.limits.specs.RowNumbers.{in_row};
ghost use Rattle.limits.specs.Strokes.{last_tick};
ghost use Rattle.limits.specs.Values.{given};

use crate::limit_tally::LimitTally;
use crate::tally::Tally;
use limits::{LAST_TICK, MOST_DISTANCES, Row, Table};

#[derive(Clone, Copy, Debug, PartialEq, Eq)]
pub struct TableTally {
    table: Table,
    past: Row<MOST_DISTANCES>,
    ghost few: { length (in_row past) ≤ length (given table) },
    ghost ticks: { largest (in_row past) ≤ last_tick },
}

impl TableTally {
    ghost use Rattle.std.specs.Prelude.{◌∷◌, take};

    // The strokes that are remembered after one more, at t.
    fn past_after(&self, t: u64) -> Row<MOST_DISTANCES>
        ensures { in_row result ≡ take (length (given self.now.table)) (t ∷ in_row self.now.past) }
    {
        let mut past = self.past;
        if past.as_slice().len() < self.table.distances().len() {
            past.push_front(t);
        } else {
            past.shift_in(t);
        }
        past
    }
}

impl Tally for TableTally {
    ghost use Rattle.rules.specs.TableLaws.{table_begins, table_early, table_late, table_reach};
    ghost use Rattle.rules.specs.Values.{table_tally_own, table_tally_span};

    ghost own = { table_tally_own };

    ghost span = { table_tally_span };

    ghost begins = { λ s. table_begins (given s.table) (in_row s.past) };

    ghost early = { λ s. table_early (given s.table) (in_row s.past) };

    ghost late = { λ s. table_late (given s.table) (in_row s.past) };

    ghost reached = { λ s. table_reach (given s.table) (in_row s.past) };

    ghost bounded = { λ s. s.table.short };

    fn opens(&self) -> u64 {
        let distances = self.table.distances();
        let mut opens: u64 = 0;
        for (k, stroke) in self.past.as_slice().iter().enumerate() {
            opens = opens.max(stroke + distances[k]);
        }
        opens
    }

    fn after(&self, t: u64) -> Option<TableTally> {
        if t > LAST_TICK || t < self.opens() {
            return None;
        }
        Some(TableTally {
            table: self.table,
            past: self.past_after(t),
        })
    }

    fn span(&self) -> u64 {
        self.table.largest()
    }
}

impl LimitTally for TableTally {
    ghost use Rattle.std.specs.Prelude.{◌↔◌, ℕ, List, IsTrue};
    ghost use Rattle.limits.specs.Limits.{Distances, KeepsTable, distance, keeps};
    ghost use Rattle.limits.specs.Values.{table_of};
    ghost use Rattle.rules.specs.Layers.{layered, table_own};
    ghost use Rattle.rules.specs.Lots.{FirstLot, SecondLot};
    ghost use Rattle.rules.specs.Rules.{Meaning, Order, laid};
    ghost use Rattle.rules.specs.Values.{table_tally_limit, table_tally_own, table_tally_span};

    type Limit = Table;

    ghost numbers = { table_of };

    ghost limit_of = { table_tally_limit };

    fn new(table: Table) -> TableTally
        ensures limit { table_tally_limit result ≡ table }
        ensures laid { (m : Meaning) → Order m → layered (table_tally_own result) m ≡ laid (table_of table) m }
        ensures keeps { (ts : List ℕ) → IsTrue (keeps (table_of table) ts) ↔ KeepsTable (given table) ts }
        ensures span { table_tally_span result ≡ largest (given table) }
        ensures distances { Distances (given table) (distance (given table)) }
        ensures lots { (past : List ℕ) → FirstLot (layered (table_own (given table) past)) × SecondLot (layered (table_own (given table) past)) (largest (given table)) }
    {
        TableTally {
            table,
            past: Row::new(),
        }
    }

    fn limit(&self) -> Table {
        self.table
    }
}
