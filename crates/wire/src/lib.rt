// The words of the wire: kinds, refusal numbers, sizes, fields, and what is laid into lent output.
#![tactic(auto)]

pub mod datagram;
pub mod fields;
pub mod kinds;
pub mod output;
pub mod refusal;
pub mod told;
