// A stroke that was granted to a bell.

// The tick at which it was asked for, and the tick at which it is due.
#[derive(Clone, Copy, PartialEq, Eq, Debug)]
pub struct Grant {
    pub asked: u64,
    pub due: u64,
}
