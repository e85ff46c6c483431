// What every flat answer shares: a yes or no, a name, a user, a block, and what was written.
#![tactic(auto)]

pub mod block;
pub mod flag;
pub mod name;
pub mod wrote;
