// What a job prints.
#![tactic(auto)]

pub mod carry;
pub mod output;
pub mod program;
