// The calls while a cut stands.
ghost use Rattle.std.specs.Prelude.{◌≡◌, ◌≤◌, length, IfOk};
ghost use Rattle.body.specs.Solids.{Solid};
ghost use Rattle.script.specs.Scripts.{Home, find_at, free, question_reply, reply_of, runs, standing as upright, state_of, world};

use crate::call::{Answer, Call, CallName, CutCall};
use crate::context::Context;
use boxes::record::BoxRecord;
use cut::cut::Cut;
use geometry::frame::Cell;
use geometry::refusal::Refusal;
use std::alloc::AllocError;

// The largest coordinate of a cell; no box holds a cell that far out.
const FARTHEST: u64 = 65535;

// Finds the box of a cell with any numbers.
#[tactic(auto, using(crate::proofs::Far::find_far))]
fn find_far<B>(
    standing: &Cut<B>,
    boxes: &[BoxRecord],
    x: u64,
    y: u64,
    z: u64,
) -> Result<Option<usize>, Refusal>
    ensures { result ≡ find_at boxes.now standing.now.count x y z }
{
    let cell = Cell {
        x: x.min(FARTHEST) as u16,
        y: y.min(FARTHEST) as u16,
        z: z.min(FARTHEST) as u16,
    };
    standing.find(boxes, cell)
}

// The answer of a cut to a call on it.
fn question<B>(standing: &Cut<B>, boxes: &[BoxRecord], call: CutCall) -> Answer
    ensures { reply_of result ≡ question_reply boxes.now standing.now.order standing.now.count call }
{
    let answer = match call {
        CutCall::Volume => standing.volume(boxes).map(Answer::Measured),
        CutCall::Find(x, y, z) => find_far(standing, boxes, x, y, z).map(Answer::Found),
        CutCall::Neighbour(u, sense, above) => standing
            .neighbour(boxes, u as usize, sense, above as usize)
            .map(Answer::Next),
        CutCall::Reopen => Ok(Answer::Reopened),
    };
    answer.unwrap_or_else(|refusal| Answer::Refused(CallName::Question(call), refusal))
}

// Makes calls until the cut is reopened, a call makes a frame or a block, or there is none left;
// gives the calls that are left.
#[tactic(auto, unfolding(crate::specs::Scripts::runs))]
pub(crate) fn while_standing<'a, B>(
    standing: &Cut<B>,
    calls: &'a [Call],
    context: &mut Context,
) -> Result<&'a [Call], AllocError>
    ensures fewer { IfOk result (λ left. length left.now ≤ length calls.now) }
    ensures went { IfOk result (λ left. (m : Solid) (h : Home) → runs (world h (upright m standing.now.order standing.now.count) (state_of context.old)) calls.now ≡ runs (world h (free m) (state_of context.new)) left.now) }
{
    let mut left = calls;
    while let Some((call, rest)) = left.split_first() {
        match call {
            Call::Make(_) => break,
            Call::SetTable(table, length) => context.set_table(*table, *length)?,
            Call::OnBlock(call) => context.tell(Answer::NotTaken(CallName::Block(*call)))?,
            Call::Cut(order) => context.tell(Answer::NotTaken(CallName::Cut(*order)))?,
            Call::OnCut(call) => {
                let answer = question(standing, context.boxes.as_slice(), *call);
                context.tell(answer)?;
                if *call == CutCall::Reopen {
                    return Ok(rest);
                }
            }
        }
        left = rest;
    }
    Ok(left)
}
