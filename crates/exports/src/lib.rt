// The cut as functions of a static library, for Rust or C to call.
#![tactic(auto)]

pub mod answer;
pub mod calls;
