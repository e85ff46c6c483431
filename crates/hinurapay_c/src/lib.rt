// hinurapay.h as a static library: each export is the function of the room `hinurapay` under the same name, and has its clauses.
#![tactic(auto)]

pub mod keeping;
pub mod lending;
pub mod pieces;
pub mod reading;
pub mod waiting;
pub mod writing;
