// What every rule can be asked, and what it owes.
ghost use Rattle.std.specs.Prelude.{◌≡◌, ℕ, ◌<◌, ◌≤◌, MatchResult};
ghost use Rattle.rules.specs.Calls.{earliest_from, strike_at};
ghost use Rattle.limits.specs.Refusals.{told};
ghost use Rattle.rules.specs.Rules.{Meaning, may, struck, Least, Order, Early, Late, Reach};
ghost use Rattle.limits.specs.Strokes.{last_tick, longest};

use limits::Refusal;

pub trait Rule {
    // its last stroke, or none, and the lists of strokes that it allows next
    ghost meaning: { Self → Meaning };

    // how many ticks after a stroke it allows another one at the latest; no call changes it
    ghost reaches: { Self → ℕ };

    // Whether a stroke may come at t.
    fn may(&self, t: u64) -> bool
        ensures { result ≡ may (meaning self.now) t };

    // The least tick at or after t that may be struck, up to the last tick, or none.
    fn earliest(&self, t: u64) -> Result<Option<u64>, Refusal>
        ensures answer { told result ≡ earliest_from (meaning self.now) t }
        ensures least { MatchResult result (Least (meaning self.now) t) (λ _. last_tick < t) };

    // Charges a stroke at t. A refusal leaves the rule as it was.
    fn strike(&mut self, t: u64) -> Result<(), Refusal>
        ensures answer { told result ≡ strike_at (meaning self.old) t }
        ensures left { MatchResult result (λ _. meaning self.new ≡ struck t (meaning self.old)) (λ _. self.new ≡ self.old) }
        ensures same_reach { reaches self.new ≡ reaches self.old };

    // No later than this many ticks after its last stroke the rule allows another one.
    fn reach(&self) -> u64
        ensures { result ≡ reaches self.now };

    ghost order: { (r : Self) → Order (meaning r) };

    ghost early: { (r : Self) → Early (meaning r) };

    ghost late: { (r : Self) → Late (meaning r) };

    ghost reached: { (r : Self) → Reach (meaning r) (reaches r) };

    ghost bounded: { (r : Self) → reaches r ≤ longest };
}
