// A UFO datagram's size, whichever way it goes.

// The most bytes that a packet may have.
pub const LIMIT: usize = 1472;
