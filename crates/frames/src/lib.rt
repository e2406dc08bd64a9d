// Lines of bells, frames of lines, and runs of calls on them.
#![tactic(auto)]

mod call;
mod frame;
mod grant;
mod line;
mod queue;
mod running;
mod side_by_side;

pub use call::{Action, Answer, Call, Reply};
pub use frame::Frame;
pub use grant::Grant;
pub use line::Line;
pub use queue::MOST_WAITING;
pub use running::{perform, run};
pub use side_by_side::SideBySide;
