//! Tests of programs and their relaxations, frontiers and searches against plain ones. Programs whose answers are known stand in
//! the trials of pc_bench.
#![tactic(auto)]

#[cfg(test)]
mod branch;
#[cfg(test)]
mod frontier;
#[cfg(test)]
mod greedy;
#[cfg(test)]
mod lists;
#[cfg(test)]
mod plain;
#[cfg(test)]
mod ready;
#[cfg(test)]
mod relaxed;
mod samples;
#[cfg(test)]
mod short;
#[cfg(test)]
mod tableau;
