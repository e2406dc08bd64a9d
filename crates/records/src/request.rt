// The record of a request: the bell that was asked for, and the tick.
use crate::record::Record;

#[derive(Clone, Copy, Debug, PartialEq, Eq)]
pub struct Request {
    pub bell: u64,
    pub tick: u64,
}

impl Record for Request {
    ghost rings = { λ r. r.bell };

    ghost falls = { λ r. r.tick };

    fn bell(&self) -> u64 {
        self.bell
    }

    fn tick(&self) -> u64 {
        self.tick
    }
}
