// The kinds: numbers that can't stand for one another.

// A sequence number. The first message is 1.
#[derive(Clone, Copy, Debug, PartialEq, Eq, PartialOrd, Ord)]
pub struct Sequence(pub u64);

// Ten bytes of text: the first two and the last eight, each read as one big-endian number.
#[derive(Clone, Copy, Debug, PartialEq, Eq)]
pub struct Name(pub u16, pub u64);

// A password: ten bytes of text that can't stand where a session's name belongs.
#[derive(Clone, Copy, Debug, PartialEq, Eq)]
pub struct Password(pub Name);

// Six bytes of text: the first two and the last four.
#[derive(Clone, Copy, Debug, PartialEq, Eq)]
pub struct User(pub u16, pub u32);

// A MEMX session.
#[derive(Clone, Copy, Debug, PartialEq, Eq)]
pub struct SessionId(pub u64);

// A reading of the clock, in whole milliseconds.
#[derive(Clone, Copy, Debug, PartialEq, Eq, PartialOrd, Ord)]
pub struct Tick(pub u64);
