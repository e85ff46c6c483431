// The held area: 32 slots for messages that came early, lent by the caller, and the bitmap of those that are full.
#![tactic(auto)]

pub mod hanging;
pub mod holding;
pub mod releasing;
pub mod slots;
