// The boxes of a body, written to a box table.
ghost use Rattle.std.specs.Prelude.{◌≡◌};
ghost use Rattle.boxes.specs.Laws.{LawfulCut};
ghost use Rattle.boxes.specs.Records.{cut_list};
ghost use Rattle.tables.specs.Tables.{filled};

use crate::list::BodyBoxes;
use crate::record::BoxRecord;
use body::body::Body;
use body::walk::{View, skip_table};
use geometry::axis::AxisOrder;
use tables::listing::fill;

// Writes the boxes of a body to the front of the table, and gives their number; none where there are
// more than the capacity, and the table then begins with the first ones.
pub fn write_boxes<B: Body>(body: &B, order: AxisOrder, table: &mut [BoxRecord]) -> Option<usize>
    ensures lawful { LawfulCut (B.meaning body.now) order }
    ensures boxes { record { count = result; table = table.new } ≡ filled (cut_list (B.meaning body.now) order) table.old }
{
    let (a, b, c) = order.axes();
    let next_a = skip_table(body, a);
    let next_b = skip_table(body, b);
    let next_c = skip_table(body, c);
    let view = View {
        body,
        order,
        a: &next_a,
        b: &next_b,
        c: &next_c,
    };
    fill(&BodyBoxes { view: &view }, table)
}
