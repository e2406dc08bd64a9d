// The record of a stroke: its bell, when it was asked for, and when it was due. An audit reads the latter.
use crate::record::Record;

#[derive(Clone, Copy, Debug, PartialEq, Eq)]
pub struct Stroke {
    pub bell: u64,
    pub asked: u64,
    pub due: u64,
}

impl Record for Stroke {
    ghost rings = { λ r. r.bell };

    ghost falls = { λ r. r.due };

    fn bell(&self) -> u64 {
        self.bell
    }

    fn tick(&self) -> u64 {
        self.due
    }
}
