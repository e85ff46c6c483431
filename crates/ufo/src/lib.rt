// UFO 1.0, server to client: packets read.
#![tactic(auto)]

pub mod down;
