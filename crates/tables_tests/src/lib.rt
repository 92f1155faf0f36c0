// Tests of tables: lists written at the front, and behind entries in use.
#![tactic(auto)]

#[cfg(test)]
mod tests;
