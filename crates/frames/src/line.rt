// The line of a bell: its rule, its clock, the strokes that wait, and the due tick last handed out. It is a frame with one bell.
ghost use Rattle.std.specs.Prelude.{◌≡◌, ◌≤◌, ◌↔◌, length, IsOk, IfOk, OnErr, IsOkUnless};
ghost use Rattle.std.specs.Option.{unwrap_or};
ghost use Rattle.limits.specs.Refusals.{told, told_by};
ghost use Rattle.frames.specs.Bells.{Fresh, fresh, outcome, timely};
ghost use Rattle.frames.specs.Reaches.{WithinReach};
ghost use Rattle.frames.specs.declared.call.Action.TheVariants.{Request, Take, Gap};
ghost use Rattle.frames.specs.declared.call.Reply.TheVariants.{Due, Taken, Since};
ghost use Rattle.frames.specs.Frames.{every_alone};

use crate::frame::Frame;
use crate::grant::Grant;
use crate::queue::Queue;
use limits::{Refusal, up_to_last};
use rules::Rule;

// Contracts see it by `line_bell`: what its rule means holds a function, and so can not be the value of a `Model`.
#[derive(Debug, Drop)]
pub struct Line<R> {
    rule: R,
    clock: u64,
    queue: Queue,
    handed: Option<u64>,
    ghost dated: { unwrap_or handed 0 ≤ clock },
}

impl<R: Rule> Line<R> {
    ghost use Rattle.frames.specs.Values.{line_bell, line_means};

    // Hangs a bell with this rule, which may have been struck before.
    pub fn new(rule: R) -> Line<R>
        ensures bell { line_bell R.Rule.meaning result ≡ fresh (R.Rule.meaning rule) }
        ensures frame { Fresh (line_means R.Rule.meaning result) }
    {
        Line {
            rule,
            clock: 0,
            queue: Queue::new(),
            handed: None,
        }
    }

    // Asks for a stroke at t, and answers the tick at which it is due.
    pub fn request(&mut self, t: u64) -> Result<u64, Refusal>
        ensures answer { told_by Due result ≡ (outcome (line_bell R.Rule.meaning self.old) (Request t)).0 }
        ensures left { line_bell R.Rule.meaning self.new ≡ (outcome (line_bell R.Rule.meaning self.old) (Request t)).1 }
        ensures kept { OnErr result (self.new ≡ self.old) }
        ensures soon { IfOk result (WithinReach (R.Rule.meaning self.old.rule) (R.Rule.reaches self.old.rule) t) }
    {
        self.in_time(t)?;
        if self.queue.is_full() {
            return Err(Refusal::Full);
        }
        let due = self.rule.earliest(t)?.ok_or(Refusal::NoTick)?;
        self.rule.strike(due)?;
        self.queue.push(Grant { asked: t, due });
        self.clock = t;
        Ok(due)
    }

    // Hands out the oldest stroke that waits, if it is due by t.
    pub fn take(&mut self, t: u64) -> Result<Option<Grant>, Refusal>
        ensures answer { told_by Taken result ≡ (outcome (line_bell R.Rule.meaning self.old) (Take t)).0 }
        ensures left { line_bell R.Rule.meaning self.new ≡ (outcome (line_bell R.Rule.meaning self.old) (Take t)).1 }
        ensures kept { OnErr result (self.new ≡ self.old) }
    {
        self.in_time(t)?;
        self.clock = t;
        let ripe = self.queue.front().filter(|oldest| oldest.due <= t);
        if let Some(oldest) = ripe {
            self.queue.pop();
            self.handed = Some(oldest.due);
        }
        Ok(ripe)
    }

    // How many ticks lie between the due tick last handed out and t.
    pub fn gap(&self, t: u64) -> Result<Option<u64>, Refusal>
        ensures answer { told_by Since result ≡ (outcome (line_bell R.Rule.meaning self.now) (Gap t)).0 }
    {
        self.in_time(t)?;
        Ok(self.handed.map(|due| t - due))
    }

    // How many strokes wait.
    pub fn waiting(&self) -> usize
        ensures { result ≡ length (line_bell R.Rule.meaning self.now).waiting }
    {
        self.queue.len()
    }

    // Whether a call may bring this tick.
    fn in_time(&self, t: u64) -> Result<(), Refusal>
        ensures { told result ≡ timely self.now.clock t }
    {
        up_to_last(t)?;
        if t < self.clock {
            return Err(Refusal::BeforeClock);
        }
        Ok(())
    }
}

// A line's only bell is number 0.
fn only_bell(bell: u64) -> Result<(), Refusal>
    ensures ok { IsOk result ↔ (bell ≡ 0) }
    ensures err { IsOkUnless result Refusal.NoBell }
{
    if bell != 0 {
        return Err(Refusal::NoBell);
    }
    Ok(())
}

impl<R: Rule> Frame for Line<R> {
    ghost use Rattle.frames.specs.Values.{line_bell, line_means};

    ghost bells = { line_means R.Rule.meaning };

    ghost ruled = { λ l. every_alone _ (line_bell R.Rule.meaning l) (R.Rule.order l.rule, R.Rule.early l.rule) };

    fn request(&mut self, bell: u64, t: u64) -> Result<u64, Refusal> {
        only_bell(bell)?;
        self.request(t)
    }

    fn take(&mut self, bell: u64, t: u64) -> Result<Option<Grant>, Refusal> {
        only_bell(bell)?;
        self.take(t)
    }

    fn gap(&self, bell: u64, t: u64) -> Result<Option<u64>, Refusal> {
        only_bell(bell)?;
        self.gap(t)
    }

    fn waiting(&self, bell: u64) -> Result<usize, Refusal> {
        only_bell(bell)?;
        Ok(self.waiting())
    }
}
