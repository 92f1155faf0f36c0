// The records of a box table.
use geometry::cuboid::Cuboid;

// A box of a cut, and the number of the piece that it belongs to, 0 before pieces are labelled.
#[derive(Clone, Copy)]
#[repr(C)]
pub struct BoxRecord {
    pub cuboid: Cuboid,
    pub piece: u32,
}
