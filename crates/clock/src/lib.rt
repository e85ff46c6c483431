// The clock: how long answers take, and how long to wait for one.
#![tactic(auto)]

pub mod patience;
mod range;
pub mod sheet;
