// Worked cases of the definitions, small enough to check by hand.
ghost use Rattle.std.specs.Prelude.{◌≡◌, length};
ghost use Rattle.body.specs.Corners.{corner_list};
ghost use Rattle.body.specs.Solids.{solid_cells};
ghost use Rattle.body.specs.Worked.{diagonal, past_the_side};

// The solid cells of a 1 x 1 x 65 grid with bit 63 of its first word and bits 0 and 1 of its second
// set: bit 1 of the second word lies past the side.
pub fn solid_past_the_side() -> u32
    ensures { result ≡ solid_cells past_the_side }
{
    // cells 63 and 64
    1 + 1
}

// The corners of the cells (0, 0, 0) and (1, 1, 0), which share an edge, in a 4 x 4 x 4 frame.
pub fn corners_of_a_diagonal() -> u32
    ensures { result ≡ length (corner_list diagonal) }
{
    12
}
