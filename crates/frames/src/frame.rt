// What every frame of bells can be asked, and what it owes. A bell is named by any number; where there is no such bell, a
// call is refused by 1.
ghost use Rattle.std.specs.Prelude.{◌≡◌, OnErr};
ghost use Rattle.limits.specs.Refusals.{told_by};
ghost use Rattle.frames.specs.Bells.{Bells, Ruled, answered, left};
ghost use Rattle.frames.specs.declared.call.Action.TheVariants.{Request, Take, Gap, Waiting};
ghost use Rattle.frames.specs.declared.call.Reply.TheVariants.{Due, Taken, Since, Waits};

use crate::grant::Grant;
use limits::Refusal;

pub trait Frame {
    // for each number no bell, or one bell's state
    ghost bells: { Self → Bells };

    // Asks the bell for a stroke at t, and answers the tick at which it is due.
    fn request(&mut self, bell: u64, t: u64) -> Result<u64, Refusal>
        ensures answer { told_by Due result ≡ answered (bells self.old) bell (Request t) }
        ensures left { bells self.new ≡ left (bells self.old) bell (Request t) }
        ensures kept { OnErr result (self.new ≡ self.old) };

    // Hands out the oldest stroke that waits at the bell, if it is due by t.
    fn take(&mut self, bell: u64, t: u64) -> Result<Option<Grant>, Refusal>
        ensures answer { told_by Taken result ≡ answered (bells self.old) bell (Take t) }
        ensures left { bells self.new ≡ left (bells self.old) bell (Take t) }
        ensures kept { OnErr result (self.new ≡ self.old) };

    // How many ticks lie between the due tick that the bell last handed out and t.
    fn gap(&self, bell: u64, t: u64) -> Result<Option<u64>, Refusal>
        ensures answer { told_by Since result ≡ answered (bells self.now) bell (Gap t) }
        ensures left { left (bells self.now) bell (Gap t) ≡ bells self.now };

    // How many strokes wait at the bell.
    fn waiting(&self, bell: u64) -> Result<usize, Refusal>
        ensures answer { told_by Waits result ≡ answered (bells self.now) bell Waiting }
        ensures left { left (bells self.now) bell Waiting ≡ bells self.now };

    ghost ruled: { (f : Self) → Ruled (bells f) };
}
