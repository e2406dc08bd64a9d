// The calls that a sheet makes.

// What a call asks for: a stroke, the oldest stroke that waits, or the time since the last one.
#[derive(Clone, Copy, Debug, PartialEq, Eq)]
pub enum Wish {
    Request,
    Take,
    Gap,
}

// A call of a sheet: any bell and any tick, which are judged only when it runs. The tick stands beside the wish, and not in
// it, since every wish has one, and a sheet writes the three in this order.
#[derive(Clone, Copy, Debug, PartialEq, Eq)]
pub struct Ask {
    pub wish: Wish,
    pub bell: u64,
    pub tick: u64,
}
