// Jobs: the text of one read into its calls.
#![tactic(auto)]

mod line;
pub mod reader;
