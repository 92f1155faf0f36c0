// The number of solid cells of any body.
ghost use Rattle.std.specs.Prelude.{◌≡◌, ℕ, ◌<◌, ◌≤◌};
ghost use Rattle.body.specs.Indexes.{Indexed};
ghost use Rattle.body.specs.Solids.{Skips, Solid, solid_cells, total};
ghost use Rattle.geometry.specs.declared.axis.Axis.{Axis as TheAxis};
ghost use Rattle.geometry.specs.declared.axis.Axis.TheVariants.{Y, Z};
ghost use Rattle.layers.specs.Counts.{plane_cells, row_cells};

use body::body::Body;
use body::walk::{SkipTable, skip_table};
use geometry::axis::Axis;
use geometry::frame::Cell;

// The sum of what `count` gives for the planes along an axis. Planes that a skip passes over count as
// the one it starts from. (A `while`, as in `tables::write_all`.)
fn sum_planes<F: Fn(u16) -> u32>(table: &SkipTable, count: F) -> u32
    requires callable { F.IsAlwaysCallable count }
    requires small { (p r : ℕ) → F.post count p r → r ≤ 1048576 }
    ensures { (m : Solid) (a : TheAxis) (f : ℕ → ℕ) → Indexed m a table.now.side table.now.next → ((p r : ℕ) → p < m.side a → F.post count p r → r ≡ f p) → ((p q : ℕ) → Skips m a p q → (n : ℕ) → p ≤ n → n < q → f n ≡ f p) → result ≡ total f (m.side a) }
{
    let mut sum = 0;
    let mut plane = 0;
    while plane < table.side {
        let next = table.next[usize::from(plane)];
        let here = count(plane);
        sum += u32::from(next - plane) * here;
        plane = next;
    }
    sum
}

// The number of solid cells of the row along z with given x and y.
fn row_count<B: Body>(body: &B, along_z: &SkipTable, x: u16, y: u16) -> u32
    requires { Indexed (B.meaning body.now) Z along_z.now.side along_z.now.next }
    ensures value { result ≡ row_cells (B.meaning body.now) x y }
    ensures bound { result ≤ 1024 }
{
    sum_planes(along_z, |z| u32::from(body.solid(Cell { x, y, z })))
}

// The number of solid cells of the plane across x.
fn plane_count<B: Body>(body: &B, along_y: &SkipTable, along_z: &SkipTable, x: u16) -> u32
    requires y { Indexed (B.meaning body.now) Y along_y.now.side along_y.now.next }
    requires z { Indexed (B.meaning body.now) Z along_z.now.side along_z.now.next }
    ensures value { result ≡ plane_cells (B.meaning body.now) x }
    ensures bound { result ≤ 1048576 }
{
    sum_planes(along_y, |y| row_count(body, along_z, x, y))
}

// The number of solid cells.
pub fn count_cells<B: Body>(body: &B) -> u32
    ensures { result ≡ solid_cells (B.meaning body.now) }
{
    let along_x = skip_table(body, Axis::X);
    let along_y = skip_table(body, Axis::Y);
    let along_z = skip_table(body, Axis::Z);
    sum_planes(&along_x, |x| plane_count(body, &along_y, &along_z, x))
}
