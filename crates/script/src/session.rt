// The run of a whole script.
ghost use Rattle.std.specs.Prelude.{◌≡◌, ◌+◌, ◌<◌, ◌≤◌, ◌^◌, List, map, length, is_some, IfOk, OnOk};
ghost use Rattle.body.specs.Solids.{Inside, Small, Solid, one};
ghost use Rattle.boxes.specs.Laws.{LawfulCut};
ghost use Rattle.geometry.specs.Frames.{sides};
ghost use Rattle.geometry.specs.declared.axis.AxisOrder.{AxisOrder};
ghost use Rattle.script.specs.Plain.{PlainCall, blocks_read, call_of, replies, start, steps};
ghost use Rattle.script.specs.Scripts.{Home, block_of, block_step, cut_step, frame_reply, grid_of, grid_reply, held_of, home_of, new_frame, new_grid, ran, reply_of, runs, size_of, state_of, step, world};
ghost use Rattle.std.specs.Option.{option_map};

use crate::block::{ask_block, cut_block};
use crate::call::{Answer, BlockCall, Call, CallName, MakeCall};
use crate::context::Context;
use body::body::Body;
use body::grid::PackedGrid;
use geometry::axis::{Axis, AxisOrder};
use geometry::frame::Frame;
use std::alloc::{AllocError, Global};

// The frame and the block in force, and how many blocks were read.
#[derive(Clone, Copy)]
pub struct Session<'a> {
    frame: Option<Frame>,
    block: Option<PackedGrid<'a>>,
    blocks: usize,
}

impl<'a> Session<'a> {
    // Makes a frame, which forgets the block; gives the answer, if there is one.
    fn make_frame(&mut self, x: u64, y: u64, z: u64) -> Option<Answer>
        ensures frame { option_map sides self.new.frame ≡ new_frame x y z }
        ensures block { option_map grid_of self.new.block ≡ None }
        ensures blocks { self.new.blocks ≡ self.old.blocks }
        ensures answer { option_map reply_of result ≡ frame_reply x y z }
    {
        let made = Frame::new(x, y, z);
        self.frame = made.ok();
        self.block = None;
        made.err()
            .map(|refusal| Answer::Refused(CallName::Frame, refusal))
    }

    // Makes the block a grid of these words; gives the answer, if there is one.
    fn make_grid(&mut self, words: &'a [u64]) -> Option<Answer>
        requires { self.old.blocks + 1 < 2 ^ 64 }
        ensures frame { self.new.frame ≡ self.old.frame }
        ensures block { option_map grid_of self.new.block ≡ new_grid (option_map sides self.old.frame) words.now }
        ensures blocks { self.new.blocks ≡ self.old.blocks + one (is_some (new_grid (option_map sides self.old.frame) words.now)) }
        ensures answer { option_map reply_of result ≡ grid_reply (option_map sides self.old.frame) words.now }
    {
        self.block = None;
        let Some(frame) = self.frame else {
            return Some(Answer::NotTaken(CallName::Grid));
        };
        match PackedGrid::new(frame, words) {
            Ok(grid) => {
                self.block = Some(grid);
                self.blocks += 1;
                None
            }
            Err(refusal) => Some(Answer::Refused(CallName::Grid, refusal)),
        }
    }

    // Makes a call on the block, where there is one.
    fn ask(&self, call: BlockCall, context: &mut Context) -> Result<(), AllocError>
        ensures { OnOk result ((h : Home) → block_step h (held_of self.now) (state_of context.old) call ≡ world h (held_of self.now) (state_of context.new)) }
    {
        match &self.block {
            Some(grid) => ask_block(grid, call, context),
            None => context.tell(Answer::NotTaken(CallName::Block(call))),
        }
    }

    // Cuts the block, where there is one, and makes calls while the cut stands; gives the calls that
    // are left.
    fn cut(
        &self,
        order: AxisOrder,
        calls: &'a [Call],
        context: &mut Context,
    ) -> Result<&'a [Call], AllocError>
        ensures fewer { IfOk result (λ left. length left.now ≤ length calls.now) }
        ensures went { IfOk result (λ left. (h : Home) → runs (cut_step h (held_of self.now) (state_of context.old) order) calls.now ≡ runs (world h (held_of self.now) (state_of context.new)) left.now) }
    {
        match self.block {
            Some(grid) => cut_block(grid, order, calls, context),
            None => {
                context.tell(Answer::NotTaken(CallName::Cut(order)))?;
                Ok(calls)
            }
        }
    }

    // Makes a call, and if it cuts the block, those after it while the cut stands; gives the calls
    // that are left.
    fn step(
        &mut self,
        call: &'a Call,
        rest: &'a [Call],
        context: &mut Context,
    ) -> Result<&'a [Call], AllocError>
        requires { self.old.blocks + 1 < 2 ^ 64 }
        ensures fewer { IfOk result (λ left. length left.now ≤ length rest.now) }
        ensures bound { self.new.blocks ≤ self.old.blocks + 1 }
        ensures went { IfOk result (λ left. runs (step (world (home_of self.old) (held_of self.old) (state_of context.old)) call.now) rest.now ≡ runs (world (home_of self.new) (held_of self.new) (state_of context.new)) left.now) }
    {
        match call {
            Call::Make(MakeCall::Frame(x, y, z)) => {
                context.tell_if(self.make_frame(*x, *y, *z))?;
            }
            Call::Make(MakeCall::Grid(words)) => {
                context.tell_if(self.make_grid(words.as_slice()))?;
            }
            Call::SetTable(table, length) => context.set_table(*table, *length)?,
            Call::OnBlock(call) => self.ask(*call, context)?,
            Call::Cut(order) => return self.cut(*order, rest, context),
            Call::OnCut(call) => context.tell(Answer::NotTaken(CallName::Question(*call)))?,
        }
        Ok(rest)
    }
}

// What a script answered, how many blocks it read, and the last one, if there is one at the end.
#[derive(Drop)]
pub struct Report {
    pub answers: Vec<Answer>,
    pub blocks: usize,
    pub last: Option<BlockSize>,
}

// The sides of a block, and how many of its cells are solid.
#[derive(Clone, Copy, PartialEq, Eq, Debug)]
pub struct BlockSize {
    pub x: u16,
    pub y: u16,
    pub z: u16,
    pub solid: u32,
}

fn block_size(block: Option<PackedGrid<'_>>) -> Option<BlockSize>
    ensures { result ≡ option_map size_of (option_map grid_of block.entry) }
{
    let grid = block?;
    let frame = grid.frame();
    Some(BlockSize {
        x: frame.side(Axis::X),
        y: frame.side(Axis::Y),
        z: frame.side(Axis::Z),
        solid: grid.count(),
    })
}

// Makes the calls of a script one after the other. A plain script does what is said of plain scripts.
#[tactic(auto, unfolding(crate::specs::Scripts::runs))]
pub fn run(heap: Global, calls: &[Call]) -> Result<Report, AllocError>
    ensures answers { IfOk result (λ p. map reply_of p.answers.items ≡ (ran calls.now).state.replies) }
    ensures blocks { IfOk result (λ p. p.blocks ≡ (ran calls.now).home.blocks) }
    ensures last { IfOk result (λ p. p.last ≡ option_map size_of (block_of (ran calls.now).held)) }
    ensures lawful { (m : Solid) → Inside m → Small m → (o : AxisOrder) → LawfulCut m o }
    ensures plain_answers { (cs : List PlainCall) → calls.now ≡ map call_of cs → IfOk result (λ p. map reply_of p.answers.items ≡ replies start cs) }
    ensures plain_blocks { (cs : List PlainCall) → calls.now ≡ map call_of cs → IfOk result (λ p. p.blocks ≡ blocks_read start cs) }
    ensures plain_last { (cs : List PlainCall) → calls.now ≡ map call_of cs → IfOk result (λ p. p.last ≡ option_map size_of (steps start cs).block) }
{
    let mut context = Context::new(heap)?;
    let mut session = Session {
        frame: None,
        block: None,
        blocks: 0,
    };
    let mut left = calls;
    while let Some((call, rest)) = left.split_first() {
        left = session.step(call, rest, &mut context)?;
    }
    let last = block_size(session.block);
    let Context { answers, .. } = context;
    Ok(Report {
        answers,
        blocks: session.blocks,
        last,
    })
}
