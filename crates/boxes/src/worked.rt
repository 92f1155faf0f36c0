// Worked cases of the definitions, small enough to check by hand.
ghost use Rattle.std.specs.Prelude.{◌≡◌, List, length, Ok, Err};
ghost use Rattle.body.specs.Solids.{solid_cells};
ghost use Rattle.boxes.specs.Measures.{volume_of};
ghost use Rattle.boxes.specs.Records.{cut_list, cut_outcome};
ghost use Rattle.boxes.specs.Worked.{ell, two_cubes, two_cubes_boxes};
ghost use Rattle.boxes.specs.declared.record.BoxRecord.{BoxRecord};
ghost use Rattle.geometry.specs.declared.axis.AxisOrder.TheVariants.{Xyz, Yxz};
ghost use Rattle.geometry.specs.declared.refusal.Refusal.TheVariants.{BoxesFull};

// An L of four cells has two boxes in the order XYZ and three in YXZ.
pub fn boxes_of_an_ell() -> (u32, u32)
    ensures { (result.0 ≡ length (cut_list ell Xyz)) × (result.1 ≡ length (cut_list ell Yxz)) }
{
    (2, 3)
}

// The cells of just one of the boxes (0 0 0)-(2 2 2) and (1 1 1)-(3 3 3) have six boxes in the order
// XYZ, those that the list has. Into a table of five records their cut is refused, into any of six it
// is granted.
pub fn boxes_of_two_cubes() -> u32
    ensures boxes { cut_list two_cubes Xyz ≡ two_cubes_boxes }
    ensures count { result ≡ length (cut_list two_cubes Xyz) }
    ensures short { (table : List BoxRecord) → length table ≡ 5 → (cut_outcome two_cubes Xyz table).answer ≡ Err BoxesFull }
    ensures exact { (table : List BoxRecord) → length table ≡ 6 → (cut_outcome two_cubes Xyz table).answer ≡ Ok 6 }
{
    6
}

// They are 14 cells: each of the cubes has eight, and the cell that both have does not count.
pub fn volume_of_two_cubes() -> u32
    ensures number { result ≡ 14 }
    ensures cells { result ≡ solid_cells two_cubes }
    ensures boxes { result ≡ volume_of (cut_list two_cubes Xyz) }
{
    14
}
