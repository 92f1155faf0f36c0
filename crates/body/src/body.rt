// The trait of bodies.
ghost use Rattle.std.specs.Prelude.{◌≡◌, ℕ};
ghost use Rattle.body.specs.Solids.{Inside, Skips, Solid};
ghost use Rattle.geometry.specs.Frames.{sides};
ghost use Rattle.geometry.specs.declared.axis.Axis.{Axis as TheAxis};

use geometry::axis::Axis;
use geometry::frame::{Cell, Frame};

// A body has a frame and a set of solid cells in it. The three questions alter nothing.
pub trait Body {
    // the frame and the solid cells
    ghost meaning: { Self → Solid };

    // the skip from each plane along each axis
    ghost skips: { Self → TheAxis → ℕ → ℕ };

    // The frame. No cell outside it is solid.
    fn frame(&self) -> Frame
        ensures frame { sides result ≡ (meaning self.now).side }
        ensures inside { Inside (meaning self.now) };

    // Whether a cell is solid; outside the frame none is.
    fn solid(&self, cell: Cell) -> bool
        ensures { result ≡ (meaning self.now).holds cell.x cell.y cell.z };

    // A plane past the given one such that all sections from that one up to it are equal.
    fn skip(&self, axis: Axis, plane: u16) -> u16
        ensures value { result ≡ skips self.now axis plane }
        ensures lawful { Skips (meaning self.now) axis plane result };
}

// A borrowed body is a body.
impl<B: Body> Body for &B {
    ghost meaning = { λ b. B.Body.meaning b.now };

    ghost skips = { λ b. B.Body.skips b.now };

    fn frame(&self) -> Frame {
        (**self).frame()
    }

    fn solid(&self, cell: Cell) -> bool {
        (**self).solid(cell)
    }

    fn skip(&self, axis: Axis, plane: u16) -> u16 {
        (**self).skip(axis, plane)
    }
}
