// A short scene on a frame of three bells: what each call asks, and what it is answered.
#![tactic(auto)]

use calls::scene;
use frames::run;
use hanging::hang;
use telling::{tell_answer, tell_bells, tell_call};

mod calls;
mod hanging;
mod telling;

fn play(rt: &(impl Print + AllocGlobal)) -> anyhow::Result<()> {
    tell_bells(rt)?;
    let mut tower = hang()?;
    let calls = scene();
    let answers = run(rt.alloc(), &mut tower, &calls)?;
    for (call, answer) in calls.iter().zip(&answers) {
        tell_call(rt, *call)?;
        tell_answer(rt, *answer)?;
    }
    Ok(())
}

fn main(rt: HostRuntime) -> anyhow::Result<()> {
    play(&rt)
}
