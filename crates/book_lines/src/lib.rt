// What a line of the specimen book says: its bytes and its numbers.
#![tactic(auto)]

pub mod entry;
mod hex;
pub mod line;
pub mod numbers;
pub mod scan;
