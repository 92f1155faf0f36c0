// Blocks: lawful corner lists in a caller's table, and what they mean.
#![tactic(auto)]

pub mod block;
pub mod check;
mod lines;
mod points;
#[cfg(test)]
mod tests;
pub mod worked;
