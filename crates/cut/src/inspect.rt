// An inspection of a body in one order: it is cut and measured, and given back.
ghost use Rattle.std.specs.Prelude.{◌≡◌};
ghost use Rattle.cut.specs.Inspections.{inspected};
ghost use Rattle.boxes.specs.Laws.{LawfulCut};
ghost use Rattle.boxes.specs.Records.{cut_outcome};

use crate::cut::make::cut;
use body::body::Body;
use boxes::record::BoxRecord;
use geometry::axis::AxisOrder;
use geometry::refusal::Refusal;

// The number of boxes of a body, and the cells in them.
#[derive(Clone, Copy, PartialEq, Eq, Debug)]
pub struct Inspection {
    pub boxes: usize,
    pub volume: u64,
}

// Cuts a body, measures its boxes and reopens it. The boxes stay in the table.
pub fn inspect<B: Body>(
    body: B,
    order: AxisOrder,
    table: &mut [BoxRecord],
) -> (B, Result<Inspection, Refusal>)
    ensures lawful { LawfulCut (B.meaning body) order }
    ensures back { result.0 ≡ body }
    ensures answer { result.1 ≡ inspected (B.meaning body) order table.old }
    ensures table { table.new ≡ (cut_outcome (B.meaning body) order table.old).table }
{
    match cut(body, order, table) {
        Ok(standing) => {
            let boxes = standing.count();
            let measured = standing.volume(table);
            let body = standing.reopen();
            (body, measured.map(|volume| Inspection { boxes, volume }))
        }
        Err((body, refusal)) => (body, Err(refusal)),
    }
}
