// The reasons for which the desk refuses, each with its number.
ghost use Rattle.std.specs.Prelude.{◌≡◌};
ghost use Rattle.wire.specs.Refusals.{number_of};

#[derive(Clone, Copy, Debug, PartialEq, Eq, PartialOrd, Ord)]
pub enum Refusal {
    // No bytes at all.
    Empty = 1,
    // More bytes than a packet or a log's message may have.
    Overlong = 2,
    // A type byte that the protocol doesn't have.
    UnknownType = 3,
    // Too short, too long, or blocks that don't end where the packet does.
    Framing = 4,
    // Padding, alphabet, reason code, header length.
    Form = 5,
    // Blank or zero where a number must stand; no session in an acceptance or a record, no user in a login.
    Absent = 6,
    // A number above its bound.
    Bound = 7,
    // A linefeed before the last byte of a Soup packet.
    Linefeed = 8,
    // The lent output is too short.
    Room = 9,
    // A record, sheet or log that doesn't hang together.
    Broken = 10,
    // Another session than the record's.
    OtherSession = 11,
    // A packet that contradicts what is known.
    Contradiction = 12,
    // A message or an end after the end.
    AfterEnd = 13,
    // A clock reading below the last one.
    Clock = 14,
    // A measure or a wait rule out of range.
    Range = 15,
    // A readable packet that isn't for the session record.
    NotForRecord = 16,
}

impl Refusal {
    pub fn number(self) -> u8
        ensures { result ≡ number_of self }
    {
        self as u8
    }
}
