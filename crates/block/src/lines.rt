// Lines along an axis: whether each carries an even number of the points of a list.
ghost use Rattle.std.specs.Prelude.{◌≡◌, ℕ, ◌/◌, ◌<◌, not, length, ◌==◌};
ghost use Rattle.block.specs.Lines.{Near, bit_at, even_along, line_place, place};
ghost use Rattle.std.specs.List.{list_all};
ghost use Rattle.body.specs.Corners.{on_line, parity};
ghost use Rattle.body.specs.Solids.{differ};

use geometry::axis::Axis;
use geometry::frame::Point;

// The bits of a row of a bitmap: a whole number of words, and more than the 1,025 planes.
const ROW: usize = 1088;

// The words of a bitmap of 1,025 rows.
const WORDS: usize = 17425;

// The place in a bitmap of the line through a point along an axis.
fn line_of(point: Point, axis: Axis) -> usize
    ensures { result ≡ line_place axis point }
{
    let (row, column) = axis.pick((point.y, point.z), (point.z, point.x), (point.x, point.y));
    usize::from(row) * ROW + usize::from(column)
}

// Turns one bit over.
#[tactic(auto, using(crate::proofs::Bitmaps::toggled))]
fn toggle(map: &mut [u64], at: usize)
    requires { at / 64 < length map.old }
    ensures { (n : ℕ) → bit_at map.new n ≡ differ (bit_at map.old n) (n == at) }
{
    map[at / 64] ^= 1 << (at % 64);
}

// Whether a bit is one; past the end none is.
#[tactic(auto, using(body::proofs::Bits::bit_test, crate::proofs::Bitmaps::bit_none))]
fn is_set(map: &[u64], at: usize) -> bool
    ensures { result ≡ bit_at map.now at }
{
    map.get(at / 64)
        .is_some_and(|word| (*word >> (at % 64)) & 1 == 1)
}

// Turns the bit of its line over for each point.
fn toggle_lines(map: &mut [u64], points: &[Point], axis: Axis)
    requires { (length map.old ≡ 17425) × (Near points.now) }
    ensures { (u v : ℕ) → v < 1088 → bit_at map.new (place u v) ≡ differ (bit_at map.old (place u v)) (parity (on_line axis u v) points.now) }
{
    for point in points {
        toggle(map, line_of(*point, axis));
    }
}

// Whether no point's line has its bit set.
fn none_set(map: &[u64], points: &[Point], axis: Axis) -> bool
    ensures { result ≡ list_all (λ p. not (bit_at map.now (line_place axis p))) points.now }
{
    points
        .iter()
        .all(|point| !is_set(map, line_of(*point, axis)))
}

// Whether every line along an axis carries an even number of the points.
pub(crate) fn are_even(points: &[Point], axis: Axis) -> bool
    requires { Near points.now }
    ensures { result ≡ even_along axis points.now }
{
    let mut odd = [0u64; WORDS];
    toggle_lines(&mut odd, points, axis);
    none_set(&odd, points, axis)
}
