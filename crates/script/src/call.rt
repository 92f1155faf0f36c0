// The calls of a script, and what they answer.
ghost use Rattle.std.specs.Prelude.{Some};
ghost use Rattle.script.specs.Words.{word_of_call};

use boxes::record::BoxRecord;
use cut::asks::Sense;
use cut::inspect::Inspection;
use geometry::axis::AxisOrder;
use geometry::frame::Point;
use geometry::refusal::Refusal;
use std::fmt;

#[derive(PartialEq, Eq, Debug, Drop)]
pub enum Call {
    // makes a frame or a block
    Make(MakeCall),
    // sets the length of a table
    SetTable(Table, usize),
    // asks something of a block that no cut holds
    OnBlock(BlockCall),
    // cuts a block in an axis order
    Cut(AxisOrder),
    // asks something of a cut, or reopens it
    OnCut(CutCall),
}

#[derive(PartialEq, Eq, Debug, Drop)]
pub enum MakeCall {
    // makes a frame with these sides
    Frame(u64, u64, u64),
    // makes the block a packed grid of these words
    Grid(Vec<u64>),
}

// The tables whose lengths a script sets.
#[derive(Clone, Copy, PartialEq, Eq, Debug)]
pub enum Table {
    Corners,
    Boxes,
}

#[derive(Clone, Copy, PartialEq, Eq, Debug)]
pub enum BlockCall {
    // counts the solid cells
    Count,
    // lists the corners
    Corners,
    // cuts, measures and reopens the block
    Inspect(AxisOrder),
}

#[derive(Clone, Copy, PartialEq, Eq, Debug)]
pub enum CutCall {
    // the number of cells of the boxes
    Volume,
    // the box that holds a cell
    Find(u64, u64, u64),
    // the first neighbour of a box, in a sense, above a number
    Neighbour(u64, Sense, u64),
    // gives the block back
    Reopen,
}

// The calls that can answer something.
#[derive(Clone, Copy, PartialEq, Eq, Debug)]
pub enum CallName {
    Frame,
    Grid,
    Block(BlockCall),
    Cut(AxisOrder),
    Question(CutCall),
}

// The word that a call has in a job, with its axis order.
impl fmt::Display for CallName {
    ghost output = { λ c. Some (word_of_call c) };

    fn fmt<W: fmt::Write>(&self, f: &mut fmt::Formatter<W>) -> fmt::Result {
        match self {
            CallName::Frame => f.write_str("frame"),
            CallName::Grid => f.write_str("grid"),
            CallName::Block(BlockCall::Count) => f.write_str("count"),
            CallName::Block(BlockCall::Corners) => f.write_str("corners"),
            CallName::Block(BlockCall::Inspect(order)) => write!(f, "inspect {order}"),
            CallName::Cut(order) => write!(f, "cut {order}"),
            CallName::Question(CutCall::Volume) => f.write_str("volume"),
            CallName::Question(CutCall::Find(_, _, _)) => f.write_str("find"),
            CallName::Question(CutCall::Neighbour(_, _, _)) => f.write_str("neighbour"),
            CallName::Question(CutCall::Reopen) => f.write_str("reopen"),
        }
    }
}

#[derive(Drop)]
pub enum Answer {
    // the number of solid cells
    Counted(u32),
    // the corner list
    Listed(Vec<Point>),
    // what an inspection in an order measured
    Inspected(AxisOrder, Inspection),
    // the boxes of a cut that now stands
    Boxed(AxisOrder, Vec<BoxRecord>),
    // a cut was refused; the first boxes, as many as the table takes
    Overfull(AxisOrder, Refusal, Vec<BoxRecord>),
    // the volume of a cut
    Measured(u64),
    // the box that holds a cell, if there is one
    Found(Option<usize>),
    // a neighbour of a box, if there is one
    Next(Option<usize>),
    // the cut was reopened
    Reopened,
    // the call was refused
    Refused(CallName, Refusal),
    // there was no frame, no block or no cut to make the call on
    NotTaken(CallName),
}
