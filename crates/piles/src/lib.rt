// Piles: grids and box lists with any layers over them, built while a program runs.
#![tactic(auto)]

pub mod pile;
