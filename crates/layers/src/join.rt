// The ways to join two bodies.
ghost use Rattle.std.specs.Prelude.{◌≡◌};
ghost use Rattle.layers.specs.Layers.{join_of, joined_skip};

// Which cells two bodies joined have: those of either, of both, of the first and not the second, or of
// just one of them.
#[derive(Clone, Copy)]
pub enum Join {
    Union,
    Intersection,
    Difference,
    SymmetricDifference,
}

impl Join {
    // Whether a cell is solid, from whether it is in the first and in the second body.
    pub fn of(self, first: bool, second: bool) -> bool
        ensures { result ≡ join_of self first second }
    {
        match self {
            Join::Union => first || second,
            Join::Intersection => first && second,
            Join::Difference => first && !second,
            Join::SymmetricDifference => first ^ second,
        }
    }
}
