// SoupTCP 3.00: its packets, read.
#![tactic(auto)]

pub mod line;
pub mod reading;
