// A row of at most N numbers: a table's distances, or the strokes that it remembers.
//
// The places and their count stand in the value itself, since no call of a rule may ask for memory and tables can be
// copied, as the kit's vectors can not. Contracts see the numbers by `in_row`, and not by a `Model`: the kit copies no value
// with a model inside where it is passed on and used again, and tables and rules are to be used so.
ghost use Rattle.std.specs.Prelude.{◌≡◌, ◌<◌, ◌≤◌, ◌↔◌, [], ◌∷◌, ◌++◌, length, take, IsTrue};
ghost use Rattle.limits.specs.Rows.{IsPadded};

// In the places behind the numbers stands 0, so that rows with the same numbers are the same value.
#[derive(Clone, Copy, Debug, PartialEq, Eq)]
pub struct Row<const N: usize> {
    places: [u64; N],
    len: usize,
    ghost padded: { IsPadded N len places },
}

impl<const N: usize> Row<N> {
    ghost use Rattle.limits.specs.RowNumbers.{IsRowOf, in_row};

    // A row of no numbers.
    pub fn new() -> Row<N>
        ensures { in_row result ≡ [] }
    {
        Row {
            places: [0; N],
            len: 0,
        }
    }

    // The numbers.
    pub fn as_slice(&self) -> &[u64]
        ensures numbers { result.now ≡ in_row self.now }
        ensures few { length (in_row self.now) ≤ N }
        ensures whole { IsRowOf result.now self.now }
    {
        &self.places[..self.len]
    }

    // Whether there is no room for one more.
    pub(crate) fn is_full(&self) -> bool
        ensures { IsTrue result ↔ (N ≤ length (in_row self.now)) }
    {
        self.len >= N
    }

    // One more number, behind the others.
    pub(crate) fn push(&mut self, x: u64)
        requires { length (in_row self.old) < N }
        ensures { in_row self.new ≡ in_row self.old ++ x ∷ [] }
    {
        self.places[self.len] = x;
        self.len += 1;
    }

    // One more number, in front of the others. Where there is no room, the last one falls out.
    pub fn push_front(&mut self, x: u64)
        ensures { in_row self.new ≡ take N (x ∷ in_row self.old) }
    {
        self.len = N.min(self.len + 1);
        self.shift_in(x);
    }

    // One more number, in front of the others, and no more of them: the last one falls out.
    pub fn shift_in(&mut self, x: u64)
        ensures { in_row self.new ≡ take (length (in_row self.old)) (x ∷ in_row self.old) }
    {
        shift(&mut self.places[..self.len], x);
    }
}

// Puts a number in front of the others; the last one falls out.
fn shift(places: &mut [u64], x: u64)
    ensures { places.new ≡ take (length places.old) (x ∷ places.old) }
{
    if let Some(last) = places.len().checked_sub(1) {
        places.copy_within(0..last, 1);
        places[0] = x;
    }
}
