// Two bodies joined.
ghost use Rattle.std.specs.Prelude.{◌≡◌};
ghost use Rattle.layers.specs.Layers.{joined, joined_skip};

use crate::join::Join;
use body::body::Body;
use geometry::axis::Axis;
use geometry::frame::{Cell, Frame};

// Two bodies joined, in the frame of the first. The second may have another frame; its cells outside
// the first's do not count.
#[derive(Drop)]
pub struct Pair<A, B> {
    pub join: Join,
    pub first: A,
    pub second: B,
}

impl<A: Body, B: Body> Body for Pair<A, B> {
    ghost meaning = { λ p. joined p.join (A.Body.meaning p.first) (B.Body.meaning p.second) };

    ghost skips = { λ p a n. joined_skip ((B.Body.meaning p.second).side a) n (A.Body.skips p.first a n) (B.Body.skips p.second a n) };

    fn frame(&self) -> Frame {
        self.first.frame()
    }

    fn solid(&self, cell: Cell) -> bool {
        self.first.frame().holds(cell)
            && self
                .join
                .of(self.first.solid(cell), self.second.solid(cell))
    }

    fn skip(&self, axis: Axis, plane: u16) -> u16 {
        let skip = self.first.skip(axis, plane);
        if plane < self.second.frame().side(axis) {
            skip.min(self.second.skip(axis, plane))
        } else {
            skip
        }
    }
}
