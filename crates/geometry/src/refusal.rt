// The refusals of all calls, under the numbers that stations and job outputs show.
ghost use Rattle.std.specs.Prelude.{◌≡◌};
ghost use Rattle.geometry.specs.Refusals.{number_of};

#[derive(Clone, Copy, PartialEq, Eq, Debug)]
pub enum Refusal {
    // a side of a frame is 0 or over 1,024
    FrameSide = 1,
    // a lower coordinate of a box is not below its upper one, or an upper one is over 1,024
    BoxBounds = 2,
    // a number of a shift is below -1,024 or over 1,024
    ShiftRange = 3,
    // a corner list counts more points than the table's capacity
    CountOver = 4,
    // a point of a corner list lies outside the frame
    PointOutside = 5,
    // a corner list does not rise strictly by x, then y, then z
    NotRising = 6,
    // a line along an axis carries an odd number of the points of a corner list
    OddLine = 7,
    // a box reaches outside the frame
    BoxOutside = 8,
    // a corner list is longer than the table's capacity
    CornersFull = 9,
    // a packed grid has fewer words than its frame takes
    GridWords = 10,
    // a cut has more boxes than the table's capacity
    BoxesFull = 11,
    // a box table is shorter than the box count of the cut
    TableShort = 12,
    // a cut has no box of this number
    NoSuchBox = 14,
}

impl Refusal {
    // The number of the refusal. (No From: `u8::from` would not say that it is the one that is shown.)
    pub fn number(self) -> u8
        ensures { result ≡ number_of self }
    {
        self as u8
    }
}
