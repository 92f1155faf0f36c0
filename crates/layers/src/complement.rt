// Complements.
ghost use Rattle.std.specs.Prelude.{◌≡◌};
ghost use Rattle.layers.specs.Layers.{complement as complement-of};

use body::body::Body;
use geometry::axis::Axis;
use geometry::frame::{Cell, Frame};

// The body with the solid cells of the frame empty and the empty ones solid.
#[derive(Drop)]
pub struct Complement<B> {
    pub body: B,
}

impl<B: Body> Body for Complement<B> {
    ghost meaning = { λ c. complement-of (B.Body.meaning c.body) };

    ghost skips = { λ c. B.Body.skips c.body };

    fn frame(&self) -> Frame {
        self.body.frame()
    }

    fn solid(&self, cell: Cell) -> bool {
        self.body.frame().holds(cell) && !self.body.solid(cell)
    }

    fn skip(&self, axis: Axis, plane: u16) -> u16 {
        self.body.skip(axis, plane)
    }
}
