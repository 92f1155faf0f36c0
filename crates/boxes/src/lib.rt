// The boxes that any body is cut into, and what they are.
#![tactic(auto)]

mod line;
mod list;
pub mod record;
mod view;
pub mod worked;
pub mod write;
