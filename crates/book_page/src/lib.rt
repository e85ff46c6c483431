// The page of the specimen book: words, numbers and bytes written to standard output.
#![tactic(auto)]

pub mod decimals;
pub mod page;
