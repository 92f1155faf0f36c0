// Tests of cuts: small grids, with the boxes worked out by hand.
#![tactic(auto)]

#[cfg(test)]
mod tests;
