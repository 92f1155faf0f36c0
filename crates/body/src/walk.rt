// Walks over the planes of a body: each skip is asked for once, and kept in a table.
ghost use Rattle.std.specs.Prelude.{◌≡◌, ℕ, ◌<◌, ◌≤◌, slice_index};
ghost use Rattle.body.specs.Indexes.{Indexed, Walks};
ghost use Rattle.body.specs.Solids.{Inside, Small};
ghost use Rattle.geometry.specs.Axes.{axis_a, axis_b, axis_c};

use crate::body::Body;
use geometry::axis::{Axis, AxisOrder};

// The most planes along an axis.
pub const PLANES: usize = 1024;

// The skips along an axis, by plane, and the side: the entries behind it mean nothing. Each skip goes to
// a later plane, at most the side. (An array and a length: there is no heap here.)
#[derive(Drop)]
pub struct SkipTable {
    pub side: u16,
    pub next: [u16; PLANES],
    pub ghost fits: { side ≤ 1024 },
    pub ghost forth: { (p : ℕ) → p < side → (p < slice_index next p) × (slice_index next p ≤ side) },
}

// The skips of a body along an axis.
pub fn skip_table<B: Body>(body: &B, axis: Axis) -> SkipTable
    ensures indexed { Indexed (B.meaning body.now) axis result.side result.next }
    ensures inside { Inside (B.meaning body.now) }
    ensures small { Small (B.meaning body.now) }
{
    let side = body.frame().side(axis);
    let mut next = [0u16; PLANES];
    let mut stop = 0;
    for plane in 0..side {
        if plane == stop {
            stop = body.skip(axis, plane);
        }
        next[plane as usize] = stop;
    }
    SkipTable { side, next }
}

impl SkipTable {
    ghost use Rattle.body.specs.Solids.{Skips, Solid};
    ghost use Rattle.geometry.specs.declared.axis.Axis.{Axis as TheAxis};

    // A later plane, up to which all sections are as at the plane; from the side on, the side.
    pub fn after(&self, plane: u16) -> u16
        ensures { (m : Solid) (a : TheAxis) → Indexed m a self.now.side self.now.next → Skips m a plane result }
    {
        self.walk_on(plane).min(self.side)
    }

    // The plane that a walk over the planes 0 to the side goes to from a plane.
    pub fn walk_on(&self, plane: u16) -> u16
        ensures { (m : Solid) (a : TheAxis) → Indexed m a self.now.side self.now.next → Walks m a plane result }
    {
        if plane < self.side {
            self.next[plane as usize]
        } else {
            self.side + 1
        }
    }
}

// The same by the body and any array of skips, which are lawful where the array is a table of them.
pub fn walk_on<B: Body>(body: &B, axis: Axis, next: &[u16; PLANES], plane: u16) -> u16
    ensures { Indexed (B.meaning body.now) axis ((B.meaning body.now).side axis) next.now → Walks (B.meaning body.now) axis plane result }
{
    let last = body.frame().side(axis);
    if plane < last {
        next[plane as usize]
    } else {
        last + 1
    }
}

// A body seen along the axes A, B and C of an order, with its skips along each of them.
#[derive(Drop)]
pub struct View<'a, B: Body> {
    pub body: &'a B,
    pub order: AxisOrder,
    pub a: &'a SkipTable,
    pub b: &'a SkipTable,
    pub c: &'a SkipTable,
    pub ghost inside: { Inside (B.Body.meaning body.now) },
    pub ghost along_a: { Indexed (B.Body.meaning body.now) (axis_a order) a.now.side a.now.next },
    pub ghost along_b: { Indexed (B.Body.meaning body.now) (axis_b order) b.now.side b.now.next },
    pub ghost along_c: { Indexed (B.Body.meaning body.now) (axis_c order) c.now.side c.now.next },
}
