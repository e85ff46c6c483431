// A packet's layout: its sizes, its places and its types.
ghost use Rattle.std.specs.Prelude.{◌≡◌};
ghost use Rattle.memx.specs.Reading.{byte_of, kind_of};

use wire::refusal::Refusal;

// The most bytes that a packet may have: a frame of 9,000 less 28 for the headers around it.
pub const LIMIT: usize = 8972;
// The bytes of the header's own fields: the least that it says of its length. Extra bytes stand behind them.
pub const HEADER: usize = 18;
// The most extra bytes: the header's length is one byte.
pub const MOST_EXTRA: usize = 237;
// Where the session begins.
pub const SESSION: usize = 2;
// Where the number begins.
pub const NUMBER: usize = 10;
// Where the blocks of messages begin, after the header and their count, if the header has no extra bytes.
pub const BLOCKS: usize = 20;
// A message's number stays below this one.
pub const CEILING: u64 = 18446744073709551615;

// The types, each with its byte.
#[derive(Clone, Copy, Debug, PartialEq, Eq)]
pub enum Kind {
    Heartbeat = 0,
    Shutdown = 1,
    Messages = 2,
}

impl Kind {
    pub fn byte(self) -> u8
        ensures { result ≡ byte_of self }
    {
        self as u8
    }
}

impl TryFrom<u8> for Kind {
    type Error = Refusal;

    ghost try_from_gives = { λ byte outcome. outcome ≡ kind_of byte };

    fn try_from(byte: u8) -> Result<Kind, Refusal> {
        match byte {
            0 => Ok(Kind::Heartbeat),
            1 => Ok(Kind::Shutdown),
            2 => Ok(Kind::Messages),
            _ => Err(Refusal::UnknownType),
        }
    }
}
