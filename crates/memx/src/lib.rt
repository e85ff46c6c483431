// MEMX-UDP 1.1: its packets, read.
#![tactic(auto)]

pub mod layout;
pub mod reading;
