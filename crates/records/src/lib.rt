// Records of requests and strokes, and their audit on a rule.
#![tactic(auto)]

mod auditing;
mod record;
mod request;
mod stroke;

pub use auditing::audit;
pub use record::Record;
pub use request::Request;
pub use stroke::Stroke;
