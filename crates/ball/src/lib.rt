// Balls: an example of a kind of body that is made outside the other crates.
#![tactic(auto)]

pub mod ball;
#[cfg(test)]
mod tests;
