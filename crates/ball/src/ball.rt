// Balls of cells.
ghost use Rattle.std.specs.Prelude.{◌≡◌};
ghost use Rattle.ball.specs.Balls.{ball_skip, ball_solid};
ghost use Rattle.geometry.specs.Frames.{sides};

use body::body::Body;
use geometry::axis::Axis;
use geometry::frame::{Cell, Frame};

// The cells of a frame at a distance of at most the radius from the centre, which may lie outside.
#[derive(Clone, Copy)]
pub struct Ball {
    pub frame: Frame,
    pub centre: Cell,
    pub radius: u16,
}

impl Body for Ball {
    ghost meaning = { λ b. ball_solid (sides b.frame) b.centre b.radius };

    ghost skips = { λ b. ball_skip (sides b.frame) b.centre b.radius };

    fn frame(&self) -> Frame {
        self.frame
    }

    fn solid(&self, cell: Cell) -> bool {
        let x = u64::from(cell.x.abs_diff(self.centre.x));
        let y = u64::from(cell.y.abs_diff(self.centre.y));
        let z = u64::from(cell.z.abs_diff(self.centre.z));
        let radius = u64::from(self.radius);
        self.frame.holds(cell) && x * x + y * y + z * z <= radius * radius
    }

    fn skip(&self, axis: Axis, plane: u16) -> u16 {
        let side = self.frame.side(axis);
        let Cell { x, y, z } = self.centre;
        let centre = axis.pick(x, y, z);
        if side <= plane {
            side
        } else if plane.abs_diff(centre) <= self.radius {
            plane + 1
        } else if plane < centre {
            side.min(centre - self.radius)
        } else {
            side
        }
    }
}
