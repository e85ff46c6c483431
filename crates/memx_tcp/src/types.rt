// The types of packets, each with its byte.
ghost use Rattle.std.specs.Prelude.{◌≡◌};
ghost use Rattle.memx_tcp.specs.Types.{byte_of, kind_of};

use wire::refusal::Refusal;

#[derive(Clone, Copy, Debug, PartialEq, Eq)]
pub enum Kind {
    // From either side: the line lives.
    Heartbeat = 0,

    // From the server. The client is let in, and this is the mode in which the server works.
    LoginAccepted = 1,
    // The client is not let in, and this is why.
    LoginRejected = 2,
    // The session that the server has.
    StartOfSession = 3,
    // No more of that session will come.
    EndOfSession = 4,
    // So many messages will come, from this number on.
    ReplayBegin = 5,
    // No replay, and this is why.
    ReplayRejected = 6,
    // So many messages were sent.
    ReplayComplete = 7,
    // Messages will come from this number on, and that is the highest so far.
    StreamBegin = 8,
    // No stream, and this is why.
    StreamRejected = 9,
    // So many messages were sent, and the session has no more.
    StreamComplete = 10,
    // The next message of a replay or a stream.
    Sequenced = 11,

    // From the client. Asks to be let in, with a token.
    Login = 100,
    // Asks for so many messages of a session, from this number on.
    Replay = 101,
    // Asks for all messages of a session.
    ReplayAll = 102,
    // Asks for a session's messages from this number on; 0 stands for the highest so far.
    Stream = 103,
    // A message to the server.
    Unsequenced = 104,
}

impl Kind {
    pub fn byte(self) -> u8
        ensures { result ≡ byte_of self }
    {
        self as u8
    }
}

impl TryFrom<u8> for Kind {
    type Error = Refusal;

    ghost try_from_gives = { λ byte outcome. outcome ≡ kind_of byte };

    // Laid into its callers, as what `layout` has is, for speed.
    #[inline(always)]
    fn try_from(byte: u8) -> Result<Kind, Refusal> {
        match byte {
            0 => Ok(Kind::Heartbeat),
            1 => Ok(Kind::LoginAccepted),
            2 => Ok(Kind::LoginRejected),
            3 => Ok(Kind::StartOfSession),
            4 => Ok(Kind::EndOfSession),
            5 => Ok(Kind::ReplayBegin),
            6 => Ok(Kind::ReplayRejected),
            7 => Ok(Kind::ReplayComplete),
            8 => Ok(Kind::StreamBegin),
            9 => Ok(Kind::StreamRejected),
            10 => Ok(Kind::StreamComplete),
            11 => Ok(Kind::Sequenced),
            100 => Ok(Kind::Login),
            101 => Ok(Kind::Replay),
            102 => Ok(Kind::ReplayAll),
            103 => Ok(Kind::Stream),
            104 => Ok(Kind::Unsequenced),
            _ => Err(Refusal::UnknownType),
        }
    }
}
