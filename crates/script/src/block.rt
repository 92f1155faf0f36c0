// The calls while there is a block that no cut holds.
ghost use Rattle.std.specs.Prelude.{◌≡◌, ◌≤◌, length, take, IfOk, OnOk};
ghost use Rattle.body.specs.Solids.{Solid, solid_cells};
ghost use Rattle.script.specs.Scripts.{Home, answered, boxed, corners_reply, cut_step, free, inspection, on_block, overfull, reply_of, runs, standing as upright, state_of, told, world};
ghost use Rattle.script.specs.declared.call.BlockCall.TheVariants.{Inspect};
ghost use Rattle.script.specs.declared.call.CallName.TheVariants as names;
ghost use Rattle.tables.specs.Tables.{capacity as room};

use crate::call::{Answer, BlockCall, Call, CallName};
use crate::context::Context;
use crate::standing::while_standing;
use body::body::Body;
use body::corners::corners;
use body::grid::PackedGrid;
use cut::cut::Cut;
use cut::cut::make::cut;
use cut::inspect::{Inspection, inspect};
use geometry::axis::AxisOrder;
use geometry::frame::Point;
use geometry::refusal::Refusal;
use std::alloc::AllocError;
use tables::listing::CAPACITY;

// A body that gives its number of solid cells.
pub trait Counted: Body {
    fn cell_count(&self) -> u32
        ensures { result ≡ solid_cells (Self.Body.meaning self.now) };
}

impl Counted for PackedGrid<'_> {
    fn cell_count(&self) -> u32 {
        self.count()
    }
}

// The corner list, in a table as long as the corner table.
fn list_corners<B: Body>(body: &B, context: &Context) -> Result<Answer, AllocError>
    ensures { IfOk result (λ a. reply_of a ≡ corners_reply context.now.corner_table (B.meaning body.now)) }
{
    let mut table = vec![in context.heap; Point { x: 0, y: 0, z: 0 }; context.corner_table]?;
    match corners(body, table.as_mut_slice()) {
        Ok(count) => {
            table.truncate(count);
            Ok(Answer::Listed(table))
        }
        Err(refusal) => Ok(Answer::Refused(CallName::Block(BlockCall::Corners), refusal)),
    }
}

fn inspection_answer(order: AxisOrder, measured: Result<Inspection, Refusal>) -> Answer
    ensures { reply_of result ≡ answered (names.Block (Inspect order)) (inspection order) measured }
{
    measured.map_or_else(
        |refusal| Answer::Refused(CallName::Block(BlockCall::Inspect(order)), refusal),
        |inspection| Answer::Inspected(order, inspection),
    )
}

// Makes a call on a block, and tells the answer.
pub(crate) fn ask_block<B: Counted>(
    body: &B,
    call: BlockCall,
    context: &mut Context,
) -> Result<(), AllocError>
    ensures { OnOk result (state_of context.new ≡ on_block (B.Body.meaning body.now) (state_of context.old) call) }
{
    match call {
        BlockCall::Count => context.tell(Answer::Counted(body.cell_count())),
        BlockCall::Corners => {
            let answer = list_corners(body, context)?;
            context.tell(answer)
        }
        BlockCall::Inspect(order) => {
            let (_, measured) = inspect(body, order, context.boxes.as_mut_slice());
            context.tell(inspection_answer(order, measured))
        }
    }
}

// Tells the boxes of a cut, and makes calls on it; gives the calls that are left.
fn ask_cut<'a, B>(
    standing: &Cut<B>,
    calls: &'a [Call],
    context: &mut Context,
) -> Result<&'a [Call], AllocError>
    ensures fewer { IfOk result (λ left. length left.now ≤ length calls.now) }
    ensures went { IfOk result (λ left. (m : Solid) (h : Home) → runs (world h (upright m standing.now.order standing.now.count) (told (state_of context.old) (boxed standing.now.order (take standing.now.count context.old.boxes.items)))) calls.now ≡ runs (world h (free m) (state_of context.new)) left.now) }
{
    let boxes = context.first_boxes(standing.count())?;
    context.tell(Answer::Boxed(standing.order(), boxes))?;
    while_standing(standing, calls, context)
}

// Tells that a cut was refused, with the first boxes.
fn tell_overfull(
    order: AxisOrder,
    refusal: Refusal,
    context: &mut Context,
) -> Result<(), AllocError>
    ensures { OnOk result (state_of context.new ≡ told (state_of context.old) (overfull order refusal (take (room context.old.boxes.items) context.old.boxes.items))) }
{
    let boxes = context.first_boxes(context.boxes.len().min(CAPACITY))?;
    context.tell(Answer::Overfull(order, refusal, boxes))
}

// Cuts a block, and makes calls while the cut stands; gives the calls that are left.
pub(crate) fn cut_block<'a, B: Body + Drop>(
    body: B,
    order: AxisOrder,
    calls: &'a [Call],
    context: &mut Context,
) -> Result<&'a [Call], AllocError>
    ensures fewer { IfOk result (λ left. length left.now ≤ length calls.now) }
    ensures went { IfOk result (λ left. (h : Home) → runs (cut_step h (free (B.meaning body)) (state_of context.old) order) calls.now ≡ runs (world h (free (B.meaning body)) (state_of context.new)) left.now) }
{
    match cut(body, order, context.boxes.as_mut_slice()) {
        Ok(standing) => {
            // a cut has to be reopened, also where an error is handed on
            let left = ask_cut(&standing, calls, context);
            standing.reopen();
            left
        }
        Err((_, refusal)) => {
            tell_overfull(order, refusal, context)?;
            Ok(calls)
        }
    }
}
