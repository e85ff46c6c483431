// The specimen book's packets, told as their readers take them.
#![tactic(auto)]

pub mod memx_packets;
pub mod soup_packets;
pub mod tcp_packets;
pub mod ufo_packets;
pub mod visiting;
