// The exported functions.
ghost use Rattle.std.specs.Prelude.{◌≡◌, Some};
ghost use Rattle.cut.specs.Asks.{volume_answer};
ghost use Rattle.exports.specs.Exports.{answer_of, cut_given, grid_given, numbered};

use crate::answer::Answer;
use body::grid::PackedGrid;
use boxes::record::BoxRecord;
use boxes::write::write_boxes;
use cut::asks::volume;
use geometry::axis::AxisOrder;
use geometry::frame::Frame;
use geometry::refusal::Refusal;

// The orders by their numbers.
const ORDERS: [AxisOrder; 6] = [
    AxisOrder::Xyz,
    AxisOrder::Xzy,
    AxisOrder::Yxz,
    AxisOrder::Yzx,
    AxisOrder::Zxy,
    AxisOrder::Zyx,
];

// The order with a number. (A number and no enum: C passes it.)
fn order_numbered(number: u8) -> Option<AxisOrder>
    ensures { result ≡ numbered number }
{
    ORDERS.get(usize::from(number)).copied()
}

// Cuts the packed grid with these sides and words into the table, and gives the number of boxes.
fn cut_words(
    words: &[u64],
    x: u64,
    y: u64,
    z: u64,
    order: AxisOrder,
    table: &mut [BoxRecord],
) -> Result<u64, Refusal>
    ensures { record { answer = answer_of result; table = table.new } ≡ cut_given (Some order) (grid_given x y z words.now) table.old }
{
    let frame = Frame::new(x, y, z)?;
    let grid = PackedGrid::new(frame, words)?;
    let count = write_boxes(&grid, order, table).ok_or(Refusal::BoxesFull)?;
    Ok(count as u64)
}

// Cuts the packed grid with these sides and words, in the order with a number, into the table, and
// answers with the number of boxes.
#[unsafe(no_mangle)]
pub extern "C" fn jellyalloy_cut(
    words: &[u64],
    x: u64,
    y: u64,
    z: u64,
    order: u8,
    table: &mut [BoxRecord],
) -> Answer
    ensures { record { answer = result; table = table.new } ≡ cut_given (numbered order) (grid_given x y z words.now) table.old }
{
    match order_numbered(order) {
        Some(order) => cut_words(words, x, y, z, order, table).into(),
        None => Answer::without_order(),
    }
}

// Answers with the number of cells of the first `count` boxes of a table.
#[unsafe(no_mangle)]
pub extern "C" fn jellyalloy_volume(records: &[BoxRecord], count: usize) -> Answer
    ensures { result ≡ answer_of (volume_answer records.now count) }
{
    volume(records, count).into()
}
