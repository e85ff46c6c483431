// MEMX-TCP 1.2: its packets, read and written.
#![tactic(auto)]

mod layout;
pub mod packet;
pub mod reading;
pub mod types;
pub mod writing;
