// The session record laid flat: opened, taken into, how it stands, and what it asks for.
#![tactic(auto)]

pub mod keeping;
pub mod opening;
pub mod requesting;
