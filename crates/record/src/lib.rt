// The session record: what a receiver knows of one session.
#![tactic(auto)]

pub mod hangs;
pub mod open;
pub mod standing;

use wire::kinds::{Name, Sequence, SessionId};

// The style and the session in one.
#[derive(Clone, Copy)]
pub enum Session {
    Ufo(Name),
    Memx(SessionId),
}

#[derive(Clone, Copy)]
pub struct Record {
    pub session: Session,
    // The number of the message that is delivered next.
    pub next: Sequence,
    // The highest number known to be published.
    pub top: Sequence,
    pub ended: bool,
    // The number last asked from, 0 if none: no Option, since `hangs` and its laws speak of asked at most next.
    pub asked: Sequence,
    // Bit i is 1 where slot i of the held area is full.
    pub held: u32,
}
