// What each type has. All of it is laid into its callers: a packet is read in a third fewer instructions so.
ghost use Rattle.std.specs.Prelude.{◌≡◌, map};
ghost use Rattle.memx_tcp.specs.Layout.{lettered, numbered, fields_of, most_of, size};
ghost use Rattle.memx_tcp.specs.Packet.{each};
ghost use Rattle.memx_tcp.specs.Types.{byte_of};
ghost use Rattle.memx_tcp.specs.Writing.{under};

use crate::packet::Fields;
use crate::types::Kind;

// The bytes before the fields: the type, and how many bytes follow.
pub const HEADER: usize = 3;
// The most bytes that a packet may have.
pub const LIMIT: usize = 65538;
// Where the first field begins.
pub const FIRST: usize = 3;
// The second: a field that another follows has eight bytes.
pub const SECOND: usize = 11;
// The third.
pub const THIRD: usize = 19;

// How many bytes the fields have.
#[tactic(auto, unfolding(crate::specs::Layout::fields_of, crate::specs::Layout::size))]
#[inline(always)]
pub fn fixed(kind: Kind) -> usize
    ensures { result ≡ size (fields_of (byte_of kind)) }
{
    match kind {
        Kind::Heartbeat | Kind::EndOfSession | Kind::Sequenced | Kind::Unsequenced => 0,
        Kind::LoginAccepted
        | Kind::LoginRejected
        | Kind::ReplayRejected
        | Kind::StreamRejected
        | Kind::Login => 1,
        Kind::ReplayComplete => 4,
        Kind::StartOfSession | Kind::StreamComplete | Kind::ReplayAll => 8,
        Kind::ReplayBegin => 12,
        Kind::StreamBegin | Kind::Stream => 16,
        Kind::Replay => 20,
    }
}

// How many bytes may follow the fields: a token or a payload.
#[tactic(auto, unfolding(crate::specs::Layout::most_of))]
#[inline(always)]
pub fn most(kind: Kind) -> usize
    ensures { result ≡ most_of (byte_of kind) }
{
    match kind {
        Kind::Login => 255,
        Kind::Sequenced | Kind::Unsequenced => 65535,
        _ => 0,
    }
}

// Whether the letter stands in its table.
#[tactic(auto, unfolding(crate::specs::Layout::fields_of, crate::specs::Packet::each))]
#[inline(always)]
pub fn is_lettered(kind: Kind, p: Fields) -> bool
    ensures { let fields = fields_of (byte_of kind) in result ≡ each lettered fields (map (under p) fields) }
{
    match kind {
        Kind::LoginAccepted => matches!(p.letter, b'S' | b'R' | b'T'),
        Kind::LoginRejected => matches!(p.letter, b'T' | b'U' | b'V' | b'A'),
        Kind::ReplayRejected => matches!(p.letter, b'R' | b'A' | b'P' | b'S'),
        Kind::StreamRejected => matches!(p.letter, b'R' | b'P' | b'S'),
        Kind::Login => p.letter == b'P',
        _ => true,
    }
}

// Whether the next number is not 0.
#[tactic(auto, unfolding(crate::specs::Layout::fields_of, crate::specs::Packet::each))]
#[inline(always)]
pub fn is_numbered(kind: Kind, p: Fields) -> bool
    ensures { let fields = fields_of (byte_of kind) in result ≡ each numbered fields (map (under p) fields) }
{
    match kind {
        Kind::ReplayBegin | Kind::StreamBegin | Kind::Replay => p.number.0 != 0,
        _ => true,
    }
}
