// Sequences of calls on one block after another, and their answers.
#![tactic(auto)]

mod block;
pub mod call;
mod context;
pub mod session;
mod standing;
pub mod tally;
