// Ringing sheets: what their bytes say, and what is written for them.
#![tactic(auto)]

mod ask;

pub use ask::{Ask, Wish};
