// Boxes of cells between a lower and an upper point.
ghost use Rattle.std.specs.Prelude.{◌≡◌, Some};
ghost use Rattle.geometry.specs.Cuboids.{bounds_ok, range_ok, lowers, uppers, in_box};
ghost use Rattle.geometry.specs.Frames.{sides_given};
ghost use Rattle.geometry.specs.Refusals.{Answers};
ghost use Rattle.geometry.specs.Words.{cuboid_text};
ghost use Rattle.geometry.specs.declared.axis.Axis.TheVariants.{X, Y, Z};
ghost use Rattle.geometry.specs.declared.refusal.Refusal.TheVariants.{BoxBounds};

use crate::axis::Axis;
use crate::frame::{Cell, LARGEST_SIDE, Point};
use crate::refusal::Refusal;
use std::fmt;

// The cells at or above the lower point and below the upper one, in all three coordinates. Stored
// numbers read as the nearest that bound at least one cell and pass 1,024 nowhere, so that every
// value is a box; what `new` takes is stored as it is.
#[derive(Clone, Copy)]
#[repr(C)]
pub struct Cuboid {
    low: Point,
    high: Point,
}

// Two numbers as a lower and an upper coordinate, if they are.
fn range(low: u64, high: u64) -> Result<(u16, u16), Refusal>
    ensures { Answers result (range_ok low high) (λ r. (r.0 ≡ low) × (r.1 ≡ high)) BoxBounds }
{
    if low < high && high <= u64::from(LARGEST_SIDE) {
        Ok((low as u16, high as u16))
    } else {
        Err(Refusal::BoxBounds)
    }
}

impl Cuboid {
    // A box with these lower and upper points.
    pub fn new(low: (u64, u64, u64), high: (u64, u64, u64)) -> Result<Cuboid, Refusal>
        ensures { Answers result (bounds_ok low high) (λ b. (lowers b ≡ sides_given low.0 low.1 low.2) × (uppers b ≡ sides_given high.0 high.1 high.2)) BoxBounds }
    {
        let (x, x_end) = range(low.0, high.0)?;
        let (y, y_end) = range(low.1, high.1)?;
        let (z, z_end) = range(low.2, high.2)?;
        Ok(Cuboid {
            low: Point { x, y, z },
            high: Point {
                x: x_end,
                y: y_end,
                z: z_end,
            },
        })
    }

    // A box that reads as near to these points as one can.
    pub fn between(low: Point, high: Point) -> Cuboid
        ensures { result ≡ record { low = low; high = high } }
    {
        Cuboid { low, high }
    }

    // The lower point.
    pub fn lower(self) -> Point
        ensures { (result.x ≡ lowers self X) × (result.y ≡ lowers self Y) × (result.z ≡ lowers self Z) }
    {
        Point {
            x: self.low.x.min(LARGEST_SIDE - 1),
            y: self.low.y.min(LARGEST_SIDE - 1),
            z: self.low.z.min(LARGEST_SIDE - 1),
        }
    }

    // The upper point.
    pub fn upper(self) -> Point
        ensures { (result.x ≡ uppers self X) × (result.y ≡ uppers self Y) × (result.z ≡ uppers self Z) }
    {
        let low = self.lower();
        Point {
            x: self.high.x.min(LARGEST_SIDE).max(low.x + 1),
            y: self.high.y.min(LARGEST_SIDE).max(low.y + 1),
            z: self.high.z.min(LARGEST_SIDE).max(low.z + 1),
        }
    }

    // The lower and the upper coordinate along an axis.
    pub fn range(self, axis: Axis) -> (u16, u16)
        ensures { result ≡ (lowers self axis, uppers self axis) }
    {
        (self.lower().along(axis), self.upper().along(axis))
    }

    // Whether a cell lies in the box.
    pub fn holds(self, cell: Cell) -> bool
        ensures { result ≡ in_box self cell.x cell.y cell.z }
    {
        let low = self.lower();
        let high = self.upper();
        let along_x = low.x <= cell.x && cell.x < high.x;
        let along_y = low.y <= cell.y && cell.y < high.y;
        let along_z = low.z <= cell.z && cell.z < high.z;
        along_x & along_y & along_z
    }
}

// A box by its lower and its upper point, as (0 0 0)-(1 2 2).
impl fmt::Display for Cuboid {
    ghost output = { λ b. Some (cuboid_text b) };

    fn fmt<W: fmt::Write>(&self, f: &mut fmt::Formatter<W>) -> fmt::Result {
        let low = self.lower();
        let high = self.upper();
        write!(f, "{low}-{high}")
    }
}
