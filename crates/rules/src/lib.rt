// Rules for hammers: when may a bell's coil fire?
#![tactic(auto)]

mod bursting;
mod layer;
mod limit_tally;
mod open_rule;
mod opening;
mod rule;
mod stair_tally;
mod table_tally;
mod tally;

pub use bursting::burst;
pub use layer::{Layer, StairOn, TableOn};
pub use limit_tally::LimitTally;
pub use open_rule::OpenRule;
pub use rule::Rule;
pub use stair_tally::StairTally;
pub use table_tally::TableTally;
pub use tally::Tally;
