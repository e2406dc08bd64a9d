// The calls on a frame of bells, and their answers.
use crate::grant::Grant;
use limits::Refusal;

// What is asked of a bell.
#[derive(Clone, Copy, PartialEq, Eq, Debug)]
pub enum Action {
    // A stroke, at this tick or as soon after it as the bell's rule allows.
    Request(u64),
    // The oldest waiting stroke, if it is due by this tick.
    Take(u64),
    // How long it has been, at this tick, since the stroke last handed out was due.
    Gap(u64),
    // How many strokes wait.
    Waiting,
}

// A bell, by its number, and what is asked of it.
#[derive(Clone, Copy, PartialEq, Eq, Debug)]
pub struct Call {
    pub bell: u64,
    pub action: Action,
}

// What a bell replies, if it does not refuse.
#[derive(Clone, Copy, PartialEq, Eq, Debug)]
pub enum Reply {
    // The stroke was granted, and is due at this tick.
    Due(u64),
    // The stroke that was handed out, or none where none was due.
    Taken(Option<Grant>),
    // So many ticks, or none where no stroke was handed out yet.
    Since(Option<u64>),
    // So many strokes wait.
    Waits(usize),
}

pub type Answer = Result<Reply, Refusal>;
