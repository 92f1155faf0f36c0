// The cut of any body into disjoint boxes, and what can be asked of it.
#![tactic(auto)]

pub mod asks;
pub mod cut;
pub mod inspect;
