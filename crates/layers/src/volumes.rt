// The volumes of two bodies and of what they have together.
ghost use Rattle.std.specs.Prelude.{◌≡◌};
ghost use Rattle.geometry.specs.Frames.{sides};
ghost use Rattle.layers.specs.Laws.{LawfulLayers, same_sides, volumes_of};

use crate::count::count_cells;
use crate::join::Join;
use crate::pair::Pair;
use body::body::Body;
use geometry::axis::Axis;
use geometry::frame::Frame;

// The numbers of cells of two bodies, of their union and of their intersection.
#[derive(Clone, Copy)]
pub struct Volumes {
    pub first: u32,
    pub second: u32,
    pub union: u32,
    pub intersection: u32,
}

// Whether two frames have the same sides. (No derived ==: that compares what is stored, not what it reads
// as.)
fn same_frame(first: Frame, second: Frame) -> bool
    ensures { result ≡ same_sides (sides first) (sides second) }
{
    first.side(Axis::X) == second.side(Axis::X)
        && first.side(Axis::Y) == second.side(Axis::Y)
        && first.side(Axis::Z) == second.side(Axis::Z)
}

// The volumes of two bodies in one frame. That of the union follows from the others.
pub fn measure<A: Body, B: Body>(first: &A, second: &B) -> Option<Volumes>
    ensures answer { result ≡ volumes_of (A.Body.meaning first.now) (B.Body.meaning second.now) }
    ensures lawful { LawfulLayers (A.Body.meaning first.now) (B.Body.meaning second.now) }
{
    if !same_frame(first.frame(), second.frame()) {
        return None;
    }
    let shared = Pair {
        join: Join::Intersection,
        first,
        second,
    };
    let intersection = count_cells(&shared);
    let first = count_cells(first);
    let second = count_cells(second);
    Some(Volumes {
        first,
        second,
        union: first + second - intersection,
        intersection,
    })
}
