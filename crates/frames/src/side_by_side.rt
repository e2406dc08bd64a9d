// Two frames side by side: even numbers are the bells of the left one, odd numbers those of the right one.
ghost use Rattle.std.specs.Prelude.{◌≡◌, ◌-◌, ◌/◌, ◌%◌, ◌==◌, if◌then◌else◌};
ghost use Rattle.frames.specs.Bells.{Fresh, beside};
ghost use Rattle.frames.specs.Values.{pair_means};
ghost use Rattle.frames.specs.Frames.{every_beside};

use crate::frame::Frame;
use crate::grant::Grant;
use limits::Refusal;

#[derive(Debug, Drop)]
pub struct SideBySide<L, R> {
    left: L,
    right: R,
}

impl<L: Frame, R: Frame> SideBySide<L, R> {
    // The two frames as one.
    pub fn new(left: L, right: R) -> SideBySide<L, R>
        ensures bells { pair_means L.Frame.bells R.Frame.bells result ≡ beside (L.Frame.bells left) (R.Frame.bells right) }
        ensures fresh { Fresh (L.Frame.bells left) → Fresh (R.Frame.bells right) → Fresh (pair_means L.Frame.bells R.Frame.bells result) }
    {
        SideBySide { left, right }
    }
}

// Where a bell stands, and its number there.
#[derive(Clone, Copy, Debug, PartialEq, Eq)]
enum Side {
    Left(u64),
    Right(u64),
}

impl Side {
    fn of(bell: u64) -> Side
        ensures { result ≡ (if bell % 2 == 0 then Side.Left (bell / 2) else Side.Right ((bell - 1) / 2)) }
    {
        if bell % 2 == 0 {
            Side::Left(bell / 2)
        } else {
            Side::Right((bell - 1) / 2)
        }
    }
}

impl<L: Frame, R: Frame> Frame for SideBySide<L, R> {
    ghost bells = { pair_means L.Frame.bells R.Frame.bells };

    ghost ruled = { λ p. every_beside _ (L.Frame.bells p.left) (R.Frame.bells p.right) (L.Frame.ruled p.left) (R.Frame.ruled p.right) };

    fn request(&mut self, bell: u64, t: u64) -> Result<u64, Refusal> {
        match Side::of(bell) {
            Side::Left(n) => self.left.request(n, t),
            Side::Right(n) => self.right.request(n, t),
        }
    }

    fn take(&mut self, bell: u64, t: u64) -> Result<Option<Grant>, Refusal> {
        match Side::of(bell) {
            Side::Left(n) => self.left.take(n, t),
            Side::Right(n) => self.right.take(n, t),
        }
    }

    fn gap(&self, bell: u64, t: u64) -> Result<Option<u64>, Refusal> {
        match Side::of(bell) {
            Side::Left(n) => self.left.gap(n, t),
            Side::Right(n) => self.right.gap(n, t),
        }
    }

    fn waiting(&self, bell: u64) -> Result<usize, Refusal> {
        match Side::of(bell) {
            Side::Left(n) => self.left.waiting(n),
            Side::Right(n) => self.right.waiting(n),
        }
    }
}
