// The specimen book's records, and the area that is lent to them.
#![tactic(auto)]

pub mod area;
pub mod tape;
