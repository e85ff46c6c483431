// MEMX-TCP laid flat: a packet read, and one written from its fields.
#![tactic(auto)]

ghost use Rattle.std.specs.Prelude.{◌≡◌, length};
ghost use Rattle.flat.specs.Wrote.{FlatSettled};
ghost use Rattle.flat_tcp.specs.Packets.{flat_tcp, tcp_read, fields_of, tcp_reply};

use flat::wrote;
use flat::wrote::Wrote;
use memx_tcp::packet::Fields;
use memx_tcp::reading::Tcp;
use wire::kinds::{Sequence, SessionId};
use wire::refusal::Refusal;

// kind: the type byte of the wire. The fields that the type lacks are 0.
#[repr(C)]
#[derive(Clone, Copy)]
pub struct FlatTcp {
    pub kind: u8,
    pub letter: u8,
    pub count: u32,
    pub session: u64,
    pub number: u64,
    pub top: u64,
    pub start: u64,
    pub length: u64,
}

#[repr(C)]
#[derive(Clone, Copy)]
pub struct FlatTcpReading {
    pub refusal: u64,
    pub packet: FlatTcp,
}

fn flat_of(said: Result<Tcp, Refusal>) -> FlatTcpReading
    ensures { result ≡ flat_tcp said }
{
    match said {
        Err(why) => FlatTcpReading {
            refusal: why.number() as u64,
            packet: FlatTcp {
                kind: 0,
                letter: 0,
                count: 0,
                session: 0,
                number: 0,
                top: 0,
                start: 0,
                length: 0,
            },
        },
        Ok(
            Tcp {
                fields,
                start,
                length,
            },
        ) => FlatTcpReading {
            refusal: 0,
            packet: FlatTcp {
                kind: fields.kind,
                letter: fields.letter,
                count: fields.count,
                session: fields.session.0,
                number: fields.number.0,
                top: fields.top.0,
                start: start as u64,
                length: length as u64,
            },
        },
    }
}

pub fn read(packet: &[u8]) -> FlatTcpReading
    ensures { result ≡ tcp_read packet.now }
{
    flat_of(memx_tcp::reading::read(packet))
}

fn fields_of(given: FlatTcp) -> Fields
    ensures { result ≡ fields_of given }
{
    Fields {
        kind: given.kind,
        letter: given.letter,
        count: given.count,
        session: SessionId(given.session),
        number: Sequence(given.number),
        top: Sequence(given.top),
    }
}

// `start` and `length` are not looked at: the body is the token or the payload.
pub fn write(given: FlatTcp, body: &[u8], out: &mut [u8]) -> Wrote
    ensures { FlatSettled (tcp_reply given body.now (length out.old)) out.old result out.new }
{
    wrote::wrote_of(memx_tcp::writing::write(fields_of(given), body, out))
}
