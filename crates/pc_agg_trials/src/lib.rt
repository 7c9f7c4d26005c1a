//! Tests of the bounds of counts, sums, least and greatest numbers: of read files, and of small cases over all relations.
#![tactic(auto)]

#[cfg(test)]
mod tests;
