//! Tests of documents that no file of trials shows: what a line is read as, and what is read and written again.
#![tactic(auto)]

#[cfg(test)]
mod tests;
