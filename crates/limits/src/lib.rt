// Limits on a hammer as values, and the refusals: what is made is in range.
#![tactic(auto)]

mod jitter;
mod refusal;
mod row;
mod stair;
mod table;
mod tick;

pub use jitter::JitteredOrder;
pub use refusal::Refusal;
pub use row::Row;
pub use stair::Stair;
pub use table::{MOST_DISTANCES, Table};
pub use tick::{LAST_TICK, up_to_last};
