// What an audit reads of a record: a bell and a tick. The records themselves belong to the caller, in whatever struct they
// stand; each kind says which of its fields are the two.
ghost use Rattle.std.specs.Prelude.{◌≡◌, ℕ};

pub trait Record {
    // the bell that the record tells
    ghost rings: { Self → ℕ };

    // the tick that it tells
    ghost falls: { Self → ℕ };

    fn bell(&self) -> u64
        ensures { result ≡ rings self.now };

    fn tick(&self) -> u64
        ensures { result ≡ falls self.now };
}
