// Tests of jobs: what is malformed, which calls lines say, and the largest capacities.
#![tactic(auto)]

#[cfg(test)]
mod tests;
