// The check of a corner list.
ghost use Rattle.std.specs.List.{list_all};
ghost use Rattle.std.specs.Prelude.{◌≡◌};
ghost use Rattle.block.specs.Checks.{Checked, even_lines, granted, list_refusal, points_refusal, rising};
ghost use Rattle.block.specs.Laws.{ListsStand, SolidsListed};
ghost use Rattle.block.specs.Lines.{Near};
ghost use Rattle.block.specs.Lists.{reached};
ghost use Rattle.geometry.specs.Frames.{sides};

use crate::lines::are_even;
use geometry::axis::Axis;
use geometry::frame::{Frame, Point};
use geometry::refusal::Refusal;
use tables::listing::CAPACITY;

// Whether all points lie in a frame.
fn are_reached(frame: Frame, points: &[Point]) -> bool
    ensures { result ≡ list_all (reached (sides frame)) points.now }
{
    points.iter().all(|point| frame.reaches(*point))
}

// Whether each point comes before the next.
fn are_rising(points: &[Point]) -> bool
    ensures { result ≡ rising points.now }
{
    points.iter().zip(points.iter().skip(1)).all(|(p, q)| p < q)
}

// Whether every line along an axis carries an even number of the points.
fn are_lines_even(points: &[Point]) -> bool
    requires { Near points.now }
    ensures { result ≡ even_lines points.now }
{
    let along_x = are_even(points, Axis::X);
    let along_y = are_even(points, Axis::Y);
    let along_z = are_even(points, Axis::Z);
    along_x & (along_y & along_z)
}

// Checks a list of points: each rule is tested of the whole list before the next.
#[tactic(auto, using(crate::proofs::Checking::reached_near, geometry::proofs::Bounds::sides_bound), unfolding(crate::specs::Checks::points_refusal))]
fn check_points(frame: Frame, points: &[Point]) -> Result<(), Refusal>
    ensures { result ≡ granted (points_refusal (sides frame) points.now) tt }
{
    if !are_reached(frame, points) {
        return Err(Refusal::PointOutside);
    }
    if !are_rising(points) {
        return Err(Refusal::NotRising);
    }
    if !are_lines_even(points) {
        return Err(Refusal::OddLine);
    }
    Ok(())
}

// Checks the first `count` points of a table as the corner list of a block in a frame. There is no
// refusal exactly when the list is lawful.
#[tactic(auto, using(crate::proofs::Checking::checked, crate::proofs::Exact::solids_listed), unfolding(crate::specs::Checks::list_refusal))]
pub fn check_list(frame: Frame, table: &[Point], count: usize) -> Result<(), Refusal>
    ensures answer { result ≡ granted (list_refusal (sides frame) table.now count) tt }
    ensures lawful { Checked (sides frame) table.now count }
    ensures stand { ListsStand }
    ensures listed { SolidsListed }
{
    if count <= table.len().min(CAPACITY) {
        check_points(frame, &table[..count])
    } else {
        Err(Refusal::CountOver)
    }
}
