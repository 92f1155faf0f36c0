// Questions on the points of a list, whatever list it is.
ghost use Rattle.std.specs.Prelude.{◌≡◌};
ghost use Rattle.block.specs.Skips.{along, next_plane};
ghost use Rattle.body.specs.Corners.{at_or_below, parity};

use geometry::axis::Axis;
use geometry::frame::{Cell, Point};

// Whether a point is at or below a cell in all three coordinates.
fn is_below(point: Point, cell: Cell) -> bool
    ensures { result ≡ at_or_below cell.x cell.y cell.z point }
{
    (point.z <= cell.z) & ((point.y <= cell.y) & (point.x <= cell.x))
}

// Whether an odd number of the points are at or below a cell.
pub(crate) fn odd_below(points: &[Point], cell: Cell) -> bool
    ensures { result ≡ parity (at_or_below cell.x cell.y cell.z) points.now }
{
    let below = points.iter().filter(|point| is_below(**point, cell));
    below.count() % 2 == 1
}

// The first plane past a plane that has one of the points, or the side.
#[tactic(auto, using(crate::proofs::Folds::next_fold))]
pub(crate) fn plane_after(points: &[Point], axis: Axis, plane: u16, side: u16) -> u16
    ensures { result ≡ next_plane axis plane points.now side }
{
    points
        .iter()
        .map(|point| point.along(axis))
        .filter(|here| plane < *here)
        .fold(side, |next, here| next.min(here))
}
