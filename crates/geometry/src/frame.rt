// Frames, and the points and cells in them.
ghost use Rattle.std.specs.Prelude.{◌≡◌, Some};
ghost use Rattle.geometry.specs.Axes.{by_axis};
ghost use Rattle.geometry.specs.Refusals.{Answers};
ghost use Rattle.geometry.specs.declared.refusal.Refusal.TheVariants.{FrameSide};
ghost use Rattle.geometry.specs.Frames.{side_ok, sides, in_frame, on_frame, sides_ok, sides_given};
ghost use Rattle.geometry.specs.Words.{point_text};

use crate::axis::Axis;
use crate::refusal::Refusal;
use std::fmt;

// A point by its coordinates, any numbers. Points are ordered by x, then y, then z.
#[derive(Clone, Copy, PartialEq, Eq, PartialOrd, Ord, Debug)]
#[repr(C)]
pub struct Point {
    pub x: u16,
    pub y: u16,
    pub z: u16,
}

impl Point {
    // The coordinate along an axis.
    pub fn along(self, axis: Axis) -> u16
        ensures { result ≡ by_axis self.x self.y self.z axis }
    {
        let Point { x, y, z } = self;
        axis.pick(x, y, z)
    }
}

// A point as (1 2 3).
impl fmt::Display for Point {
    ghost output = { λ p. Some (point_text p) };

    fn fmt<W: fmt::Write>(&self, f: &mut fmt::Formatter<W>) -> fmt::Result {
        let Point { x, y, z } = *self;
        write!(f, "({x} {y} {z})")
    }
}

// A unit cell by its lowest point, any numbers.
#[derive(Clone, Copy, PartialEq, Eq, Debug)]
pub struct Cell {
    pub x: u16,
    pub y: u16,
    pub z: u16,
}

// The side lengths of a block. A stored number reads as the nearest of 1 to 1,024, so that every
// value is a frame; what `new` takes is stored as it is.
#[derive(Clone, Copy)]
pub struct Frame {
    x: u16,
    y: u16,
    z: u16,
}

// The largest side, and the largest coordinate of a point in a frame.
pub const LARGEST_SIDE: u16 = 1024;

// A number as a side, if it is one. (Beside `step` of shifts and `range` of boxes: one generic test would
// take the bounds, the conversion and the refusal as parameters, and have no fewer lines.)
fn side(n: u64) -> Result<u16, Refusal>
    ensures { Answers result (side_ok n) (λ s. s ≡ n) FrameSide }
{
    if 1 <= n && n <= u64::from(LARGEST_SIDE) {
        Ok(n as u16)
    } else {
        Err(Refusal::FrameSide)
    }
}

impl Frame {
    // A frame with these sides. (Three numbers and no struct, here as for boxes and shifts: they are any
    // numbers until the call has judged them.)
    pub fn new(x: u64, y: u64, z: u64) -> Result<Frame, Refusal>
        ensures { Answers result (sides_ok x y z) (λ f. sides f ≡ sides_given x y z) FrameSide }
    {
        Ok(Frame {
            x: side(x)?,
            y: side(y)?,
            z: side(z)?,
        })
    }

    // The side along an axis.
    pub fn side(self, axis: Axis) -> u16
        ensures { result ≡ sides self axis }
    {
        axis.pick(self.x, self.y, self.z).clamp(1, LARGEST_SIDE)
    }

    // Whether a cell lies in the frame.
    pub fn holds(self, cell: Cell) -> bool
        ensures { result ≡ in_frame (sides self) cell.x cell.y cell.z }
    {
        cell.x < self.side(Axis::X) && cell.y < self.side(Axis::Y) && cell.z < self.side(Axis::Z)
    }

    // Whether a point lies in the frame.
    pub fn reaches(self, point: Point) -> bool
        ensures { result ≡ on_frame (sides self) point.x point.y point.z }
    {
        point.x <= self.side(Axis::X)
            && point.y <= self.side(Axis::Y)
            && point.z <= self.side(Axis::Z)
    }
}
