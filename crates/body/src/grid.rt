// Packed grids: bodies whose cells are the bits of a caller's words.
ghost use Rattle.std.specs.Prelude.{◌≡◌, ℕ, ◌+◌, ◌-◌, ◌*◌, ◌^◌, ◌<◌, ◌≤◌, length, nat_le, slice_index};
ghost use Rattle.body.specs.Grids.{bit, first, grid_skip, packed, row_bit, row_differs, row_words, rows_differ, words_needed};
ghost use Rattle.body.specs.Solids.{one, solid_cells, total};
ghost use Rattle.geometry.specs.Frames.{sides};
ghost use Rattle.geometry.specs.Refusals.{Answers};
ghost use Rattle.geometry.specs.declared.axis.Axis.TheVariants.{X, Y, Z};
ghost use Rattle.geometry.specs.declared.refusal.Refusal.TheVariants.{GridWords};

use crate::body::Body;
use geometry::axis::Axis;
use geometry::frame::{Cell, Frame};
use geometry::refusal::Refusal;

// The number of words of a row of cells along z.
pub fn row_words(frame: Frame) -> usize
    ensures value { result ≡ row_words (sides frame Z) }
    ensures bound { result ≤ 16 }
{
    usize::from(frame.side(Axis::Z)).div_ceil(64)
}

// The number of rows along z.
pub fn rows(frame: Frame) -> usize
    ensures value { result ≡ sides frame X * sides frame Y }
    ensures bound { result ≤ 2 ^ 20 }
{
    usize::from(frame.side(Axis::X)) * usize::from(frame.side(Axis::Y))
}

// A row of cells along z, whose words are those from a place on. A word that is missing reads as 0.
#[derive(Clone, Copy)]
struct Row<'a> {
    words: &'a [u64],
    base: usize,
    ghost small: { base < 2 ^ 32 },
}

impl Row<'_> {
    // A word of the row.
    fn word(self, w: u16) -> u64
        ensures { result ≡ slice_index self.entry.words.now (self.entry.base + w) }
    {
        self.words
            .get(self.base + usize::from(w))
            .copied()
            .unwrap_or(0)
    }

    // The changes in a word of the row: bit b is one where cell 64 w + b differs from the cell before.
    // Bit 0 of the first word has no cell before it.
    fn changes(self, w: u16) -> u64
        ensures { (b : ℕ) → b < 64 → 0 < 64 * w + b → bit result b ≡ row_differs self.entry.words.now self.entry.base (64 * w + b) }
    {
        let word = self.word(w);
        let before = if w == 0 { 0 } else { self.word(w - 1) >> 63 };
        word ^ (word << 1 | before)
    }

    // The first place from the beginning of word `start` on and below `limit` at which the row changes, or
    // `limit`. (Apart from `first_change`, so that rows of one word are searched in a short loop.)
    #[inline(never)]
    fn later_change(self, start: u16, limit: u16) -> u16
        requires { (0 < start) × ((64 * start ≤ limit) × (limit ≤ 1024)) }
        ensures { result ≡ first (row_differs self.entry.words.now self.entry.base) (limit - 64 * start) (64 * start) }
    {
        for w in start..limit.div_ceil(64) {
            let zeros = self.changes(w).trailing_zeros() as u16;
            if zeros < 64 {
                return limit.min(64 * w + zeros);
            }
        }
        limit
    }

    // The first place from `from` on and below `limit` at which the row changes, or `limit`.
    fn first_change(self, from: u16, limit: u16) -> u16
        requires { (0 < from) × ((from ≤ limit) × (limit ≤ 1024)) }
        ensures { result ≡ first (row_differs self.entry.words.now self.entry.base) (limit - from) from }
    {
        let word = from / 64;
        let zeros = (self.changes(word) >> (from % 64)).trailing_zeros() as u16;
        if zeros < 64 {
            return limit.min(from + zeros);
        }
        if limit <= 64 * (word + 1) {
            return limit;
        }
        self.later_change(word + 1, limit)
    }

    // The number of solid cells of the row, which has `side` cells.
    fn count(self, side: u16) -> u32
        ensures { result ≡ total (λ k. one (row_bit self.entry.words.now self.entry.base k)) side }
    {
        let whole = side / 64;
        let mut count = 0;
        for w in 0..whole {
            count += self.word(w).count_ones();
        }
        let last = self.word(whole) & ((1 << (side % 64)) - 1);
        count + last.count_ones()
    }
}

// A grid in its frame, over words that are only read. A word that is missing reads as 0, so that
// every value is a grid; `new` refuses too few words.
#[derive(Clone, Copy)]
pub struct PackedGrid<'a> {
    frame: Frame,
    words: &'a [u64],
}

impl<'a> PackedGrid<'a> {
    // A grid with these words.
    pub fn new(frame: Frame, words: &'a [u64]) -> Result<PackedGrid<'a>, Refusal>
        ensures { Answers result (nat_le (words_needed (sides frame)) (length words.now)) (λ g. packed (sides g.frame) g.words.now ≡ packed (sides frame) words.now) GridWords }
    {
        if rows(frame) * row_words(frame) <= words.len() {
            Ok(PackedGrid { frame, words })
        } else {
            Err(Refusal::GridWords)
        }
    }

    // A row of cells along z.
    fn row(&self, row: usize) -> Row<'a>
        requires { row < 2 ^ 27 }
        ensures { (result.words.now ≡ self.now.words.now) × (result.base ≡ row * row_words (sides self.now.frame Z)) }
    {
        Row {
            words: self.words,
            base: row * row_words(self.frame),
        }
    }

    // The number of solid cells.
    pub fn count(&self) -> u32
        ensures { result ≡ solid_cells (packed (sides self.now.frame) self.now.words.now) }
    {
        let side = self.frame.side(Axis::Z);
        let mut count = 0;
        for row in 0..rows(self.frame) {
            count += self.row(row).count(side);
        }
        count
    }

    // The first place along z from `from` on and below `limit` at which some row changes, or `limit`.
    fn next_change(&self, from: u16, limit: u16) -> u16
        requires { (0 < from) × ((from ≤ limit) × (limit ≤ 1024)) }
        ensures { result ≡ first (rows_differ self.now.words.now (row_words (sides self.now.frame Z)) (sides self.now.frame X * sides self.now.frame Y)) (limit - from) from }
    {
        let mut best = limit;
        for row in 0..rows(self.frame) {
            if best == from {
                return best;
            }
            best = self.row(row).first_change(from, best);
        }
        best
    }
}

impl Body for PackedGrid<'_> {
    ghost meaning = { λ g. packed (sides g.frame) g.words.now };

    ghost skips = { λ g. grid_skip (packed (sides g.frame) g.words.now) };

    fn frame(&self) -> Frame {
        self.frame
    }

    fn solid(&self, cell: Cell) -> bool {
        if !self.frame.holds(cell) {
            return false;
        }
        let row = usize::from(cell.x) * usize::from(self.frame.side(Axis::Y)) + usize::from(cell.y);
        let word = self.row(row).word(cell.z / 64);
        (word >> (cell.z % 64)) & 1 == 1
    }

    fn skip(&self, axis: Axis, plane: u16) -> u16 {
        let side = self.frame.side(axis);
        if side <= plane {
            return side;
        }
        match axis {
            Axis::X | Axis::Y => plane + 1,
            Axis::Z => self.next_change(plane + 1, side),
        }
    }
}
