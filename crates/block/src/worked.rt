// Worked cases of the definitions, small enough to check by hand.
ghost use Rattle.std.specs.Prelude.{◌≡◌, [], length};
ghost use Rattle.block.specs.Checks.{list_refusal};
ghost use Rattle.block.specs.Lists.{cells_of};
ghost use Rattle.block.specs.Worked.{cube, edge};
ghost use Rattle.body.specs.Corners.{corner_list};
ghost use Rattle.geometry.specs.Frames.{sides, sides_given};

use geometry::frame::{Cell, Frame};
use geometry::refusal::Refusal;

// The corners of the empty list, in any frame.
pub fn corners_of_nothing(frame: Frame) -> usize
    ensures { result ≡ length (corner_list (cells_of (sides frame) [])) }
{
    let _ = frame;
    0
}

// Whether a cell of the empty list is solid, in any frame.
#[tactic(auto, unfolding(crate::specs::Lists::cells_of))]
pub fn solid_in_nothing(frame: Frame, cell: Cell) -> bool
    ensures { result ≡ (cells_of (sides frame) []).holds cell.x cell.y cell.z }
{
    let _ = (frame, cell);
    false
}

// The refusal of the points (0 0 0) and (1 0 0) in a 4 x 4 x 4 frame: the line along x has both, but
// those along y and z have one each.
#[tactic(auto, unfolding(crate::specs::Checks::list_refusal, crate::specs::Checks::points_refusal))]
pub fn refusal_of_an_edge() -> Option<Refusal>
    ensures { result ≡ list_refusal (sides_given 4 4 4) edge 2 }
{
    Some(Refusal::OddLine)
}

// Whether the cells (1 1 1) and (2 0 0) of the cube (0 0 0)-(2 2 2) are solid. Just two of its corners
// are at or below the second, though five stand no later in the list than the point (2 0 0).
#[tactic(auto, unfolding(crate::specs::Lists::cells_of))]
pub fn solid_in_a_cube() -> (bool, bool)
    ensures { result ≡ ((cells_of (sides_given 4 4 4) cube).holds 1 1 1, (cells_of (sides_given 4 4 4) cube).holds 2 0 0) }
{
    (true, false)
}
