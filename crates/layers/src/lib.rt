// Lists of boxes as bodies, layers over any body (its complement, its translation, and two bodies
// joined), and the number of cells of any body.
#![tactic(auto)]

pub mod boxes;
pub mod complement;
pub mod count;
pub mod join;
pub mod moves;
pub mod pair;
pub mod translation;
pub mod volumes;
