// What a limit remembers of its strokes, so that it can be laid on a rule.
ghost use Rattle.std.specs.Prelude.{◌≡◌, ℕ, ◌≤◌, nat_le};
ghost use Rattle.rules.specs.Layers.{Begins, Next};
ghost use Rattle.rules.specs.Rules.{Meaning, may, Early, Late, Reach};
ghost use Rattle.limits.specs.Strokes.{longest};

pub trait Tally: Copy {
    // the limit alone: its own last stroke, or none, and the lists of strokes that it lets pass next
    ghost own: { Self → Meaning };

    // how long it can bar the next stroke
    ghost span: { Self → ℕ };

    // The tick before which the limit bars a stroke.
    fn opens(&self) -> u64
        ensures { (t : ℕ) → may (own self.now) t ≡ nat_le result t };

    // What is remembered after a stroke at t, or none where t is barred or past the last tick.
    fn after(&self, t: u64) -> Option<Self>
        ensures { Next own span self.now t result };

    // How many ticks after a stroke the limit lets another one pass at the latest.
    fn span(&self) -> u64
        ensures { result ≡ span self.now };

    ghost begins: { (s : Self) → Begins (own s) };

    ghost early: { (s : Self) → Early (own s) };

    ghost late: { (s : Self) → Late (own s) };

    ghost reached: { (s : Self) → Reach (own s) (span s) };

    ghost bounded: { (s : Self) → span s ≤ longest };
}
