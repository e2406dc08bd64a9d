// The strokes that wait at a bell, the oldest first. They stand in a ring: a place that is left serves again.
//
// The places and their count stand in the value itself, since no call on a bell may ask for memory.
ghost use Rattle.std.specs.Prelude.{◌≡◌, ◌<◌, ◌≤◌, ◌↔◌, [], ◌∷◌, ◌++◌, length, drop, IsTrue};
ghost use Rattle.frames.specs.Bells.{oldest};
ghost use Rattle.frames.specs.Rings.{IsRing};
ghost use Rattle.frames.specs.declared.queue.TheConstants.{MOST_WAITING};

use crate::grant::Grant;

// The most strokes that wait at one bell.
pub const MOST_WAITING: usize = 32;

// It is no `Model`: what a refusal leaves is the same value, places and all, and not only the same strokes.
#[derive(Debug, Drop)]
pub(crate) struct Queue {
    places: [Grant; MOST_WAITING],
    first: usize,
    count: usize,
    ghost ring: { IsRing MOST_WAITING places first count },
}

impl Queue {
    ghost use Rattle.frames.specs.Values.{in_queue};

    pub(crate) fn new() -> Queue
        ensures { in_queue result ≡ [] }
    {
        Queue {
            places: [Grant { asked: 0, due: 0 }; MOST_WAITING],
            first: 0,
            count: 0,
        }
    }

    // How many wait.
    pub(crate) fn len(&self) -> usize
        ensures { result ≡ length (in_queue self.now) }
    {
        self.count
    }

    // Whether as many wait as can.
    pub(crate) fn is_full(&self) -> bool
        ensures { IsTrue result ↔ (MOST_WAITING ≤ length (in_queue self.now)) }
    {
        self.len() >= MOST_WAITING
    }

    // The oldest, or none.
    pub(crate) fn front(&self) -> Option<Grant>
        ensures { result ≡ oldest (in_queue self.now) }
    {
        (self.count > 0).then_some(self.places[self.first])
    }

    // One more, behind the others.
    pub(crate) fn push(&mut self, grant: Grant)
        requires { length (in_queue self.old) < MOST_WAITING }
        ensures { in_queue self.new ≡ in_queue self.old ++ grant ∷ [] }
    {
        let end = (self.first + self.count) % MOST_WAITING;
        self.places[end] = grant;
        self.count += 1;
    }

    // The oldest leaves, if there is one.
    pub(crate) fn pop(&mut self)
        ensures { in_queue self.new ≡ drop 1 (in_queue self.old) }
    {
        if self.count > 0 {
            self.first = (self.first + 1) % MOST_WAITING;
            self.count -= 1;
        }
    }
}
