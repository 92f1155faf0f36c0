// The cut of a body into boxes, written to a box table.
ghost use Rattle.std.specs.Prelude.{◌≡◌, Ok, Err};
ghost use Rattle.boxes.specs.Laws.{LawfulCut};
ghost use Rattle.boxes.specs.Records.{cut_outcome};

use crate::cut::Cut;
use body::body::Body;
use boxes::record::BoxRecord;
use boxes::write::write_boxes;
use geometry::axis::AxisOrder;
use geometry::refusal::Refusal;

// Cuts a body into boxes, which go to the front of the table.
pub fn cut<B: Body>(
    body: B,
    order: AxisOrder,
    table: &mut [BoxRecord],
) -> Result<Cut<B>, (B, Refusal)>
    ensures lawful { LawfulCut (B.meaning body) order }
    ensures outcome { elim result [ Ok k ↦ (record { answer = Ok k.count; table = table.new } ≡ cut_outcome (B.meaning body) order table.old) × (k.body ≡ body) × (k.order ≡ order) | Err p ↦ (record { answer = Err p.1; table = table.new } ≡ cut_outcome (B.meaning body) order table.old) × (p.0 ≡ body) ] }
{
    // not by ok_or: the body goes into the cut, or back to the caller beside the refusal
    match write_boxes(&body, order, table) {
        Some(count) => Ok(Cut { body, order, count }),
        None => Err((body, Refusal::BoxesFull)),
    }
}
