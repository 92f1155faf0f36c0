// What can be asked of the records of a cut: their volume, the box that holds a cell, and neighbours.
ghost use Rattle.std.specs.Fn.{FnReturnsAt};
ghost use Rattle.std.specs.Prelude.{◌≡◌, ◌≤◌, Bool, false, length, nat_le};
ghost use Rattle.boxes.specs.Measures.{cells_of, found, volume_of};
ghost use Rattle.cut.specs.Asks.{find_answer, front, neighbour_answer, next_to, share as shared, touches as touching, volume_answer};
ghost use Rattle.geometry.specs.Refusals.{Answers};
ghost use Rattle.geometry.specs.declared.axis.AxisOrder.{AxisOrder};
ghost use Rattle.geometry.specs.declared.refusal.Refusal.TheVariants.{TableShort};
ghost use Rattle.cut.specs.declared.asks.Sense.{Sense};
ghost use Rattle.boxes.specs.declared.record.BoxRecord.{BoxRecord};

use boxes::record::BoxRecord;
use geometry::axis::{Axis, AxisOrder};
use geometry::frame::Cell;
use geometry::refusal::Refusal;
use tables::listing::CAPACITY;

// The number of cells of a record's box.
fn cell_count(item: BoxRecord) -> u64
    ensures value { result ≡ cells_of item }
    ensures bound { result ≤ 1073741824 }
{
    let low = item.cuboid.lower();
    let high = item.cuboid.upper();
    let x = (high.x - low.x) as u64;
    let y = (high.y - low.y) as u64;
    let z = (high.z - low.z) as u64;
    x * y * z
}

// The number of cells of all boxes.
#[tactic(auto, unfolding(boxes::specs::Measures::volume_of))]
fn total_cells(records: &[BoxRecord]) -> u64
    requires { length records.now ≤ 65536 }
    ensures { result ≡ volume_of records.now }
{
    records.iter().map(|item| cell_count(*item)).sum()
}

// The first `count` records of a table; those after as many as a cut can have do not count.
fn counted(records: &[BoxRecord], count: usize) -> Result<&[BoxRecord], Refusal>
    ensures { Answers result (nat_le count (length records.now)) (λ l. l.now ≡ front count records.now) TableShort }
{
    if count <= records.len() {
        Ok(&records[..count.min(CAPACITY)])
    } else {
        Err(Refusal::TableShort)
    }
}

// The number of cells of the first `count` boxes of a table.
pub fn volume(records: &[BoxRecord], count: usize) -> Result<u64, Refusal>
    ensures { result ≡ volume_answer records.now count }
{
    Ok(total_cells(counted(records, count)?))
}

// The least number above `above` of a record that passes; the first record has number 1. `q` is any
// function that gives what the calls of `passes` give.
fn first_above<F: Fn(&BoxRecord) -> bool>(
    records: &[BoxRecord],
    above: usize,
    passes: F,
) -> Option<usize>
    requires { F.IsAlwaysCallable passes }
    ensures { (q : BoxRecord → Bool) → ((r : BoxRecord) (b : Bool) → FnReturnsAt F.Fn passes r b → b ≡ q r) → result ≡ found q above records.now }
{
    records
        .iter()
        .skip(above)
        .position(passes)
        .map(|at| above + at + 1)
}

// The least number of a box that holds the cell, among the first `count` of a table.
pub fn find(records: &[BoxRecord], count: usize, cell: Cell) -> Result<Option<usize>, Refusal>
    ensures { result ≡ find_answer records.now count cell }
{
    let counted = counted(records, count)?;
    Ok(first_above(counted, 0, |item| item.cuboid.holds(cell)))
}

// Where a neighbour lies, along A or along B.
#[derive(Clone, Copy, PartialEq, Eq, Debug)]
pub enum Sense {
    AForward,
    ABackward,
    BForward,
    BBackward,
}

// Whether the ranges of two boxes along an axis have a coordinate of a cell in common.
fn share(axis: Axis, u: BoxRecord, v: BoxRecord) -> bool
    ensures { result ≡ shared axis u v }
{
    let (u_low, u_high) = u.cuboid.range(axis);
    let (v_low, v_high) = v.cuboid.range(axis);
    u_low.max(v_low) < u_high.min(v_high)
}

// Whether u ends along `a` where v begins, with a shared range of each of `b` and `c`.
#[tactic(auto, unfolding(crate::specs::Asks::touches))]
fn touches(a: Axis, b: Axis, c: Axis, u: BoxRecord, v: BoxRecord) -> bool
    ensures { result ≡ touching a b c u v }
{
    let (_, end) = u.cuboid.range(a);
    let (start, _) = v.cuboid.range(a);
    let along_b = share(b, u, v);
    let along_c = share(c, u, v);
    (end == start) & along_b & along_c
}

// Whether v is a neighbour of u in a sense.
#[tactic(auto, unfolding(crate::specs::Asks::next_to))]
fn is_next(order: AxisOrder, sense: Sense, u: BoxRecord, v: BoxRecord) -> bool
    ensures { result ≡ next_to order sense u v }
{
    let (a, b, c) = order.axes();
    match sense {
        Sense::AForward => touches(a, b, c, u, v),
        Sense::ABackward => touches(a, b, c, v, u),
        Sense::BForward => touches(b, a, c, u, v),
        Sense::BBackward => touches(b, a, c, v, u),
    }
}

// The least number above `above` of a neighbour of box `u` in a sense, among the first `count` of a
// table.
#[tactic(auto, using(crate::proofs::Asking::next_to_self))]
pub fn neighbour(
    records: &[BoxRecord],
    count: usize,
    order: AxisOrder,
    u: usize,
    sense: Sense,
    above: usize,
) -> Result<Option<usize>, Refusal>
    ensures answer { result ≡ neighbour_answer records.now count order u sense above }
    ensures never_itself { (o : AxisOrder) (s : Sense) (b : BoxRecord) → next_to o s b b ≡ false }
{
    let counted = counted(records, count)?;
    if u == 0 || counted.len() < u {
        return Err(Refusal::NoSuchBox);
    }
    let item = counted[u - 1];
    Ok(first_above(counted, above, |other| {
        is_next(order, sense, item, *other)
    }))
}
