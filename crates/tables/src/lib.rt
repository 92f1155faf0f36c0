// Writing a list to the front of a caller's table, a part at a time.
#![tactic(auto)]

pub mod listing;
