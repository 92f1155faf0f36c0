// Bodies: whatever has a frame and a set of solid cells, and the corner list of any of them.
#![tactic(auto)]

pub mod body;
pub mod corners;
pub mod grid;
pub mod walk;
pub mod worked;
