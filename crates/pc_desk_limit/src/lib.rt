//! Limits behind constraints: lines that narrow what may be lost, and open nothing.
#![tactic(auto)]

mod closing;
mod copies;
mod laws;
mod limiting;
mod lines;
mod rest;

pub use laws::closing_boxes_hold_what_limits_open;
pub use limiting::{Limiting, limit};
