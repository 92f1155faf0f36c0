// The corner list of any body.
ghost use Rattle.std.specs.Prelude.{◌≡◌, ℕ, ◌+◌, ◌≤◌, Bool};
ghost use Rattle.body.specs.Corners.{Determines, EvenLines, Rising, changes, corner, corner_at, corner_list, corners_outcome, plane_corners, row_corners};
ghost use Rattle.body.specs.Indexes.{Indexed};
ghost use Rattle.geometry.specs.declared.axis.Axis.TheVariants.{X, Y, Z};

use crate::body::Body;
use crate::walk::{View, skip_table};
use geometry::axis::{Axis, AxisOrder};
use geometry::frame::{Cell, Point};
use geometry::refusal::Refusal;
use tables::listing::{Listing, fill, write_all, write_one};

// Whether a test answers otherwise at n than at the number before; before 0 it is false.
fn changes<F: Fn(u16) -> bool>(test: F, n: u16) -> bool
    requires { F.IsAlwaysCallable test }
    ensures { (h : ℕ → Bool) → ((i : ℕ) (r : Bool) → i ≤ n → F.post test i r → r ≡ h i) → result ≡ changes h n }
{
    let here = test(n);
    if n == 0 { here } else { here ^ test(n - 1) }
}

// Whether an odd number of the cells (x, y, z) and (x - 1, y, z) are solid.
fn odd_pair<B: Body>(body: &B, x: u16, y: u16, z: u16) -> bool
    ensures { result ≡ changes (λ i. (B.meaning body.now).holds i y z) x }
{
    changes(|i| body.solid(Cell { x: i, y, z }), x)
}

// The same of the four cells with x or x - 1 and y or y - 1.
fn odd_four<B: Body>(body: &B, x: u16, y: u16, z: u16) -> bool
    ensures { result ≡ changes (λ j. changes (λ i. (B.meaning body.now).holds i j z) x) y }
{
    changes(|j| odd_pair(body, x, j, z), y)
}

// Whether a point is a corner.
fn is_corner<B: Body>(body: &B, x: u16, y: u16, z: u16) -> bool
    ensures { result ≡ corner (B.meaning body.now).holds x y z }
{
    changes(|k| odd_four(body, x, y, k), z)
}

// The corners with given x and y, by z. (One type for each level of the walk, though they are alike: each
// has other entries, and a law of its own for the planes that are passed over.)
#[derive(Drop)]
struct RowCorners<'a, B: Body> {
    view: &'a View<'a, B>,
    x: u16,
    y: u16,
    ghost along_z: { Indexed (B.Body.meaning view.now.body.now) Z view.now.c.now.side view.now.c.now.next },
}

impl<'a, B: Body> Listing<Point> for RowCorners<'a, B> {
    ghost part = { λ l. corner_at (B.Body.meaning l.view.now.body.now) l.x l.y };

    ghost parts = { λ l. (B.Body.meaning l.view.now.body.now).side Z + 1 };

    ghost ready = { λ _. Unit {0} };

    fn planes(&self) -> u16 {
        self.view.c.side + 1
    }

    fn after(&self, plane: u16) -> u16 {
        self.view.c.walk_on(plane)
    }

    fn write_plane(&self, plane: u16, table: &mut [Point]) -> Option<usize> {
        let RowCorners { view, x, y } = *self;
        if is_corner(view.body, x, y, plane) {
            write_one(Point { x, y, z: plane }, table)
        } else {
            Some(0)
        }
    }
}

// The corners with given x, by y and z.
#[derive(Drop)]
struct PlaneCorners<'a, B: Body> {
    view: &'a View<'a, B>,
    x: u16,
    ghost along_y: { Indexed (B.Body.meaning view.now.body.now) Y view.now.b.now.side view.now.b.now.next },
    ghost along_z: { Indexed (B.Body.meaning view.now.body.now) Z view.now.c.now.side view.now.c.now.next },
}

impl<'a, B: Body> Listing<Point> for PlaneCorners<'a, B> {
    ghost part = { λ l. row_corners (B.Body.meaning l.view.now.body.now) l.x };

    ghost parts = { λ l. (B.Body.meaning l.view.now.body.now).side Y + 1 };

    ghost ready = { λ _. Unit {0} };

    fn planes(&self) -> u16 {
        self.view.b.side + 1
    }

    fn after(&self, plane: u16) -> u16 {
        self.view.b.walk_on(plane)
    }

    fn write_plane(&self, plane: u16, table: &mut [Point]) -> Option<usize> {
        let row = RowCorners {
            view: self.view,
            x: self.x,
            y: plane,
        };
        write_all(&row, table)
    }
}

// All corners, by x, y and z.
#[derive(Drop)]
struct BodyCorners<'a, B: Body> {
    view: &'a View<'a, B>,
    ghost along_x: { Indexed (B.Body.meaning view.now.body.now) X view.now.a.now.side view.now.a.now.next },
    ghost along_y: { Indexed (B.Body.meaning view.now.body.now) Y view.now.b.now.side view.now.b.now.next },
    ghost along_z: { Indexed (B.Body.meaning view.now.body.now) Z view.now.c.now.side view.now.c.now.next },
}

impl<'a, B: Body> Listing<Point> for BodyCorners<'a, B> {
    ghost part = { λ l. plane_corners (B.Body.meaning l.view.now.body.now) };

    ghost parts = { λ l. (B.Body.meaning l.view.now.body.now).side X + 1 };

    ghost ready = { λ _. Unit {0} };

    fn planes(&self) -> u16 {
        self.view.a.side + 1
    }

    fn after(&self, plane: u16) -> u16 {
        self.view.a.walk_on(plane)
    }

    fn write_plane(&self, plane: u16, table: &mut [Point]) -> Option<usize> {
        let corners = PlaneCorners {
            view: self.view,
            x: plane,
        };
        write_all(&corners, table)
    }
}

// Writes the corner list of a body to the front of the table, and gives its length.
pub fn corners<B: Body>(body: &B, table: &mut [Point]) -> Result<usize, Refusal>
    ensures outcome { record { answer = result; table = table.new } ≡ corners_outcome (B.meaning body.now) table.old }
    ensures rises { Rising (corner_list (B.meaning body.now)) }
    ensures even { EvenLines (corner_list (B.meaning body.now)) }
    ensures determines { Determines (corner_list (B.meaning body.now)) (B.meaning body.now).holds }
{
    let x = skip_table(body, Axis::X);
    let y = skip_table(body, Axis::Y);
    let z = skip_table(body, Axis::Z);
    let view = View {
        body,
        order: AxisOrder::Xyz,
        a: &x,
        b: &y,
        c: &z,
    };
    fill(&BodyCorners { view: &view }, table).ok_or(Refusal::CornersFull)
}
