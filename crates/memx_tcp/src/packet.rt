// A packet's fields by name.
ghost use Rattle.std.specs.Prelude.{◌≡◌};
ghost use Rattle.memx_tcp.specs.Reading.{fields};

use wire::kinds::{Sequence, SessionId};

// Those that the type lacks are 0.
#[derive(Clone, Copy, Debug, PartialEq, Eq)]
pub struct Fields {
    // The type byte of the wire: a number, since a writer may be given any, and refuses an unknown one in its place, after a long body.
    pub kind: u8,
    // A mode, a reject code, a token's type.
    pub letter: u8,
    // How many messages: pending, sent or asked for.
    pub count: u32,
    pub session: SessionId,
    // The next number; of a complete stream the total.
    pub number: Sequence,
    // The highest number published.
    pub top: Sequence,
}

impl Fields {
    // Those of a type that has none.
    pub fn none(kind: u8) -> Fields
        ensures { result ≡ fields kind 0 0 0 0 0 }
    {
        Fields {
            kind,
            letter: 0,
            count: 0,
            session: SessionId(0),
            number: Sequence(0),
            top: Sequence(0),
        }
    }
}
