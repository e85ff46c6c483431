// One packet or message, laid flat: the fields that its type lacks are 0.
#![tactic(auto)]

pub mod fitting;

ghost use Rattle.std.specs.Prelude.{◌≡◌, ◌-◌};
ghost use Rattle.flat_packet.specs.Packets.{nothing, bare, named, rejected, payload, logged_in, numbered, counted, broadcast};
ghost use Rattle.flat_packet.specs.Packets.{requested, no_packet_under, the_packet};

use wire::told::Tells;

// kind: the type byte of the wire. extra: in MEMX-UDP how many bytes the header has past its own fields.
#[repr(C)]
#[derive(Clone, Copy, Default)]
pub struct Packet {
    pub kind: u8,
    pub reason: u8,
    pub count: u16,
    pub user: [u8; 6],
    pub password: [u8; 10],
    pub name: [u8; 10],
    pub session: u64,
    pub number: u64,
    pub start: u64,
    pub length: u64,
    pub next: u64,
    pub extra: u8,
}

#[repr(C)]
#[derive(Clone, Copy)]
pub struct Read {
    pub refusal: u64,
    pub packet: Packet,
}

// A packet that isn't there.
pub fn nothing() -> Packet
    ensures { result ≡ nothing }
{
    Packet::default()
}

pub fn no_packet<W: Tells>(why: W) -> Read
    ensures { result ≡ no_packet_under (W.told why) }
{
    Read {
        refusal: why.told() as u64,
        packet: nothing(),
    }
}

fn the_packet(packet: Packet) -> Read
    ensures { result ≡ the_packet packet }
{
    Read { refusal: 0, packet }
}

pub fn bare(kind: u8, next: u64) -> Read
    ensures { result ≡ bare kind next }
{
    payload(kind, 0, 0, next)
}

pub fn named(name: [u8; 10], number: u64) -> Read
    ensures { result ≡ named name number }
{
    the_packet(Packet {
        kind: b'A',
        name,
        number,
        ..nothing()
    })
}

pub fn rejected(reason: u8) -> Read
    ensures { result ≡ rejected reason }
{
    the_packet(Packet {
        kind: b'J',
        reason,
        ..nothing()
    })
}

pub fn payload(kind: u8, start: u64, length: u64, next: u64) -> Read
    ensures { result ≡ payload kind start length next }
{
    the_packet(Packet {
        kind,
        start,
        length,
        next,
        ..nothing()
    })
}

pub fn logged_in(user: [u8; 6], password: [u8; 10], name: [u8; 10], number: u64, next: u64) -> Read
    ensures { result ≡ logged_in user password name number next }
{
    the_packet(Packet {
        kind: b'L',
        user,
        password,
        name,
        number,
        next,
        ..nothing()
    })
}

pub fn numbered(kind: u8, session: u64, number: u64) -> Read
    ensures { result ≡ numbered kind session number }
{
    counted(kind, session, number, 0, 0, 0)
}

// Numbered messages, whose blocks stand from `start` to the end of the packet's `size` bytes.
pub fn counted(kind: u8, session: u64, number: u64, count: u16, start: u64, size: u64) -> Read
    ensures { result ≡ counted kind session number count start size }
{
    broadcast(kind, session, number, count, 0, start, size)
}

// The same in MEMX-UDP, whose header has so many extra bytes.
pub fn broadcast(
    kind: u8,
    session: u64,
    number: u64,
    count: u16,
    extra: u8,
    start: u64,
    size: u64,
) -> Read
    ensures { result ≡ broadcast kind session number count extra start size }
{
    the_packet(Packet {
        kind,
        session,
        number,
        count,
        start,
        length: size.saturating_sub(start),
        extra,
        ..nothing()
    })
}

pub fn requested(kind: u8, number: u64, count: u16, next: u64) -> Read
    ensures { result ≡ requested kind number count next }
{
    the_packet(Packet {
        kind,
        number,
        count,
        next,
        ..nothing()
    })
}
