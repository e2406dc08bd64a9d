// Published limits in words: what they are, when a burst of strokes is due under them, and what an audit finds in a trace.
#![tactic(auto)]

use laid::{chime_drum, five_dues, nine_dues, ten_dues, three_stairs, two_distances};
use records::Stroke;
use rules::LimitTally;
use telling::{tell_audit, tell_dues, tell_stair, tell_table};

mod laid;
mod telling;

// A stroke of the trace: it was asked for at the tick at which it fell.
fn stroke(bell: u64, tick: u64) -> Stroke {
    Stroke {
        bell,
        asked: tick,
        due: tick,
    }
}

fn tell_stairs(rt: &impl Print) -> anyhow::Result<()> {
    let mut rule = three_stairs()?;
    println!(rt; "Three stairs, each laid on the next. In any stretch of time there are")?;
    tell_stair(rt, rule.tally.limit())?;
    tell_stair(rt, rule.below.tally.limit())?;
    tell_stair(rt, rule.below.below.tally.limit())?;
    tell_dues(rt, &nine_dues()?)?;
    let trace = [
        stroke(1, 0),
        stroke(2, 0),
        stroke(1, 1),
        stroke(1, 2),
        stroke(2, 3),
        stroke(1, 4),
        stroke(1, 8),
        stroke(1, 11),
        stroke(1, 16),
    ];
    tell_audit(rt, 1, &trace, &mut rule)?;
    Ok(())
}

fn tell_distances(rt: &impl Print) -> anyhow::Result<()> {
    let mut rule = two_distances()?;
    println!(rt; "A table. There are")?;
    tell_table(rt, &rule.tally.limit())?;
    tell_dues(rt, &five_dues()?)?;
    let trace = [
        stroke(2, 5),
        stroke(1, 0),
        stroke(1, 10),
        stroke(1, 30),
        stroke(1, 39),
        stroke(1, 60),
    ];
    tell_audit(rt, 1, &trace, &mut rule)?;
    Ok(())
}

fn tell_drum(rt: &impl Print) -> anyhow::Result<()> {
    let mut rule = chime_drum()?;
    println!(rt;
        "A chime drum strikes every 100 ms, each stroke up to 300 ms late, and none less than 20 ms after another."
    )?;
    println!(rt; "That takes two stairs. In any stretch of time there are")?;
    tell_stair(rt, rule.below.tally.limit())?;
    tell_stair(rt, rule.tally.limit())?;
    tell_dues(rt, &ten_dues()?)?;
    let trace = [
        stroke(1, 0),
        stroke(1, 20),
        stroke(2, 30),
        stroke(1, 40),
        stroke(1, 60),
        stroke(1, 99),
        stroke(1, 200),
    ];
    tell_audit(rt, 1, &trace, &mut rule)?;
    Ok(())
}

fn main(rt: HostRuntime) -> anyhow::Result<()> {
    tell_stairs(&rt)?;
    tell_distances(&rt)?;
    tell_drum(&rt)
}
