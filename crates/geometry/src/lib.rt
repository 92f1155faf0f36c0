// Frames, points, cells, boxes, shifts and axis orders, and the refusals of every call.
#![tactic(auto)]

pub mod axis;
pub mod cuboid;
pub mod frame;
pub mod refusal;
pub mod shift;
