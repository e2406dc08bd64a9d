// Running calls on a frame, one or a list of them.
ghost use Rattle.std.specs.Prelude.{◌≡◌, map, IfOk, MatchResult, OnErr, OnOk};
ghost use Rattle.limits.specs.Refusals.{told};
ghost use Rattle.frames.specs.Bells.{Fresh, answered, answers, leaves, left};
ghost use Rattle.frames.specs.Runs.{Governed};

use crate::call::{Action, Answer, Call, Reply};
use crate::frame::Frame;
use std::alloc::{AllocError, Global};

// Performs one call. Calls are data, which a list holds and a program prints.
pub fn perform<F: Frame>(frame: &mut F, call: Call) -> Answer
    ensures answer { told result ≡ answered (F.Frame.bells frame.old) call.bell call.action }
    ensures left { F.Frame.bells frame.new ≡ left (F.Frame.bells frame.old) call.bell call.action }
    ensures kept { OnErr result (frame.new ≡ frame.old) }
{
    let bell = call.bell;
    match call.action {
        Action::Request(t) => frame.request(bell, t).map(Reply::Due),
        Action::Take(t) => frame.take(bell, t).map(Reply::Taken),
        Action::Gap(t) => frame.gap(bell, t).map(Reply::Since),
        Action::Waiting => frame.waiting(bell).map(Reply::Waits),
    }
}

// Performs the calls in their order, and gives their answers. Where there is no memory for these, no call is performed.
pub fn run<F: Frame>(heap: Global, frame: &mut F, calls: &[Call]) -> Result<Vec<Answer>, AllocError>
    ensures answers { MatchResult result (λ v. map told v.items ≡ answers (F.Frame.bells frame.old) calls.now) (λ _. frame.new ≡ frame.old) }
    ensures left { OnOk result (F.Frame.bells frame.new ≡ leaves (F.Frame.bells frame.old) calls.now) }
    ensures governed { IfOk result (λ v. Fresh (F.Frame.bells frame.old) → Governed (F.Frame.bells frame.old) calls.now (map told v.items) (F.Frame.bells frame.new)) }
{
    let mut given = Vec::with_capacity(heap, calls.len())?;
    for call in calls {
        given.push_reserved(perform(frame, *call));
    }
    Ok(given)
}
