// Piles of layers over grids and box lists.
ghost use Rattle.std.specs.Prelude.{◌≡◌, IfOk};
ghost use Rattle.body.specs.Solids.{Inside, Skips};
ghost use Rattle.geometry.specs.Frames.{sides};
ghost use Rattle.geometry.specs.Shifts.{steps};
ghost use Rattle.layers.specs.Layers.{complement, joined, translated};
ghost use Rattle.piles.specs.Piles.{piled, piled_skip};

use body::body::Body;
use body::grid::PackedGrid;
use geometry::axis::Axis;
use geometry::frame::{Cell, Frame};
use geometry::shift::Shift;
use layers::boxes::BoxList;
use layers::complement::Complement;
use layers::join::Join;
use layers::pair::Pair;
use layers::translation::Translation;
use std::alloc::{AllocError, Global};

// A grid or a box list, or a layer over one pile or two.
#[derive(Drop)]
pub enum Pile<'a> {
    Grid(PackedGrid<'a>),
    Boxes(BoxList<'a>),
    Translated(Shift, Box<Pile<'a>>),
    Complement(Box<Pile<'a>>),
    Joined(Join, Box<Pile<'a>>, Box<Pile<'a>>),
}

// The layer over a pile that a translated one is.
fn translation<'p, 'a>(shift: Shift, below: &'p Pile<'a>) -> Translation<&'p Pile<'a>>
    ensures { (result.shift ≡ shift) × (result.body.now ≡ below.now) }
{
    Translation { shift, body: below }
}

// The layer that a complement is.
fn complement<'p, 'a>(below: &'p Pile<'a>) -> Complement<&'p Pile<'a>>
    ensures { result.body.now ≡ below.now }
{
    Complement { body: below }
}

// The layer that two joined piles are.
fn pair<'p, 'a>(
    join: Join,
    first: &'p Pile<'a>,
    second: &'p Pile<'a>,
) -> Pair<&'p Pile<'a>, &'p Pile<'a>>
    ensures { (result.join ≡ join) × (result.first.now ≡ first.now) × (result.second.now ≡ second.now) }
{
    Pair {
        join,
        first,
        second,
    }
}

impl Body for Pile<'_> {
    ghost meaning = { piled };

    ghost skips = { piled_skip };

    fn frame(&self) -> Frame {
        match self {
            Pile::Grid(grid) => grid.frame(),
            Pile::Boxes(list) => list.frame(),
            Pile::Translated(_, below) => below.frame(),
            Pile::Complement(below) => below.frame(),
            Pile::Joined(_, first, _) => first.frame(),
        }
    }

    #[cycle(pile)]
    fn solid(&self, cell: Cell) -> bool {
        match self {
            Pile::Grid(grid) => grid.solid(cell),
            Pile::Boxes(list) => list.solid(cell),
            Pile::Translated(shift, below) => translation(*shift, below).solid(cell),
            Pile::Complement(below) => complement(below).solid(cell),
            Pile::Joined(join, first, second) => pair(*join, first, second).solid(cell),
        }
    }

    #[cycle(pile)]
    fn skip(&self, axis: Axis, plane: u16) -> u16 {
        match self {
            Pile::Grid(grid) => grid.skip(axis, plane),
            Pile::Boxes(list) => list.skip(axis, plane),
            Pile::Translated(shift, below) => translation(*shift, below).skip(axis, plane),
            Pile::Complement(below) => complement(below).skip(axis, plane),
            Pile::Joined(join, first, second) => pair(*join, first, second).skip(axis, plane),
        }
    }
}

impl<'a> Pile<'a> {
    // The pile moved by a shift.
    pub fn translate(self, heap: Global, shift: Shift) -> Result<Pile<'a>, AllocError>
        ensures { IfOk result (λ p. piled p ≡ translated (steps shift) (piled self.entry)) }
    {
        Ok(Pile::Translated(shift, Box::new(heap, self)?))
    }

    // The complement of the pile.
    pub fn invert(self, heap: Global) -> Result<Pile<'a>, AllocError>
        ensures { IfOk result (λ p. piled p ≡ complement (piled self.entry)) }
    {
        Ok(Pile::Complement(Box::new(heap, self)?))
    }

    // The pile joined with a second one.
    pub fn join(self, heap: Global, join: Join, second: Pile<'a>) -> Result<Pile<'a>, AllocError>
        ensures { IfOk result (λ p. piled p ≡ joined join (piled self.entry) (piled second.entry)) }
    {
        let first = Box::new(heap, self)?;
        let second = Box::new(heap, second)?;
        Ok(Pile::Joined(join, first, second))
    }

    // A pile with the same meaning, which shares only the words and boxes at the bottom. (Not `Clone`:
    // the library's clone of a box leads back to it, and no proof was found for that cycle.)
    pub fn duplicate(&self, heap: Global) -> Result<Pile<'a>, AllocError>
        ensures { IfOk result (λ p. piled p ≡ piled self.now) }
    {
        match self {
            Pile::Grid(grid) => Ok(Pile::Grid(*grid)),
            Pile::Boxes(list) => Ok(Pile::Boxes(*list)),
            Pile::Translated(shift, below) => {
                let copy = Box::new(heap, below.duplicate(heap)?)?;
                Ok(Pile::Translated(*shift, copy))
            }
            Pile::Complement(below) => {
                let copy = Box::new(heap, below.duplicate(heap)?)?;
                Ok(Pile::Complement(copy))
            }
            Pile::Joined(join, first, second) => {
                let left = Box::new(heap, first.duplicate(heap)?)?;
                let right = Box::new(heap, second.duplicate(heap)?)?;
                Ok(Pile::Joined(*join, left, right))
            }
        }
    }
}
