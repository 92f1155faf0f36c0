// Lists of boxes.
ghost use Rattle.std.specs.Prelude.{◌≡◌, take};
ghost use Rattle.geometry.specs.Frames.{sides};
ghost use Rattle.tables.specs.Tables.{capacity};
ghost use Rattle.layers.specs.Boxes.{boxed, boxed_skip, nearer as nearer-plane, next_bound, some_box};

use body::body::Body;
use geometry::axis::Axis;
use geometry::cuboid::Cuboid;
use geometry::frame::{Cell, Frame};
use tables::listing::CAPACITY;

// The cells of a frame that lie in one of the boxes, which may overlap and reach outside the frame.
#[derive(Clone, Copy)]
pub struct BoxList<'a> {
    frame: Frame,
    boxes: &'a [Cuboid],
}

impl<'a> BoxList<'a> {
    // The boxes of a table, up to its capacity.
    pub fn new(frame: Frame, boxes: &'a [Cuboid]) -> BoxList<'a>
        ensures { (result.frame ≡ frame) × (result.boxes.now ≡ take (capacity boxes.now) boxes.now) }
    {
        BoxList {
            frame,
            boxes: &boxes[..boxes.len().min(CAPACITY)],
        }
    }
}

// Whether one of the boxes holds the cell. (Not inlined: by itself the loop compares coordinates side by side.)
#[inline(never)]
fn some_holds(boxes: &[Cuboid], cell: Cell) -> bool
    ensures { result ≡ some_box boxes.now cell.x cell.y cell.z }
{
    boxes.iter().any(|item| item.holds(cell))
}

// The nearer of `far` and a bound past the plane.
fn nearer(plane: u16, far: u16, bound: u16) -> u16
    ensures { result ≡ nearer-plane plane far bound }
{
    if plane < bound { far.min(bound) } else { far }
}

// The nearest plane past the given one at which a box begins or ends, or `far`.
fn next_bound(boxes: &[Cuboid], axis: Axis, plane: u16, far: u16) -> u16
    ensures { result ≡ next_bound axis plane boxes.now far }
{
    let mut next = far;
    for item in boxes {
        let (low, high) = item.range(axis);
        next = nearer(plane, nearer(plane, next, low), high);
    }
    next
}

impl Body for BoxList<'_> {
    ghost meaning = { λ l. boxed (sides l.frame) l.boxes.now };

    ghost skips = { λ l. boxed_skip (sides l.frame) l.boxes.now };

    fn frame(&self) -> Frame {
        self.frame
    }

    fn solid(&self, cell: Cell) -> bool {
        self.frame.holds(cell) && some_holds(self.boxes, cell)
    }

    fn skip(&self, axis: Axis, plane: u16) -> u16 {
        next_bound(self.boxes, axis, plane, self.frame.side(axis))
    }
}
