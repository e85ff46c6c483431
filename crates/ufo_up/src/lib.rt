// UFO 1.0, client to server: packets and their messages, read.
#![tactic(auto)]

pub mod up;
