// Texts of jobs: lines, words and numbers, and scans packed into words.
#![tactic(auto)]

pub mod problem;
pub mod scan;
pub mod text;
