// Tests of frames, boxes and shifts: the refusals of their constructors.
#![tactic(auto)]

#[cfg(test)]
mod tests;
