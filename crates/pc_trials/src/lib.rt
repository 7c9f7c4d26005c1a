//! Tests of `run` that no file of trials shows: loads and puts that fail, how many files each command loads, which
//! constraints contradict each other whatever lost rows are shown, and the trees of several blocks.
#![tactic(auto)]

#[cfg(test)]
mod tests;
