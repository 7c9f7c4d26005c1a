//! Tests of cells against plain programs, and of runs. Boxes, trees and cells that are known stand in the trials of pc_bench.
#![tactic(auto)]

#[cfg(test)]
mod cells;
#[cfg(test)]
mod runs;
