// UFO, server to client, laid flat: a packet read, and one written from its fields.
#![tactic(auto)]

ghost use Rattle.std.specs.Prelude.{◌≡◌, length};
ghost use Rattle.wire.specs.Reply.{Settled};
ghost use Rattle.flat.specs.Wrote.{FlatSettled};
ghost use Rattle.flat_ufo.specs.Reading.{flat_said, down_read};
ghost use Rattle.flat_ufo.specs.Writing.{down_reply};

use flat::name::name_of;
use flat::wrote;
use flat::wrote::Wrote;
use flat_packet::fitting::unfit;
use flat_packet::{Packet, Read};
use ufo::down::Down;
use wire::datagram::LIMIT;
use wire::kinds::Sequence;
use wire::refusal::Refusal;

// The packet has `size` bytes.
fn flat_of(said: Down, size: u64) -> Read
    ensures { result ≡ flat_said size said }
{
    match said {
        Down::Accept { session, next } => flat_packet::named(names::name_bytes(session), next.0),
        Down::Reject { reason } => flat_packet::rejected(reason),
        Down::Messages { first, count } => flat_packet::counted(b'S', 0, first.0, count, 7, size),
        Down::End { total } => flat_packet::numbered(b'E', 0, total.0),
    }
}

pub fn read(packet: &[u8]) -> Read
    ensures { result ≡ down_read packet.now }
{
    match ufo::down::read_down(packet) {
        Err(why) => flat_packet::no_packet(why),
        Ok(said) => flat_of(said, packet.len() as u64),
    }
}

fn written(fields: Packet, body: &[u8], out: &mut [u8]) -> Result<usize, Refusal>
    ensures { Settled (down_reply fields body.now (length out.old))
        out.old result out.new }
{
    let number = Sequence(fields.number);
    match fields.kind {
        b'A' => {
            if body.len() != 0 {
                return unfit(LIMIT, 15, body, Refusal::Framing);
            }
            ufo_write::write_accept(name_of(&fields.name), number, out)
        }
        b'J' => {
            if body.len() != 0 {
                return unfit(LIMIT, 2, body, Refusal::Framing);
            }
            ufo_write::write_reject(fields.reason, out)
        }
        b'S' => ufo_write::write_messages(number, fields.count, body, out),
        b'E' => {
            if body.len() != 0 {
                return unfit(LIMIT, 5, body, Refusal::Framing);
            }
            ufo_write::write_end(number, out)
        }
        _ => unfit(LIMIT, 1, body, Refusal::UnknownType),
    }
}

pub fn write(fields: Packet, body: &[u8], out: &mut [u8]) -> Wrote
    ensures { FlatSettled (down_reply fields body.now (length out.old))
        out.old result out.new }
{
    wrote::wrote_of(written(fields, body, out))
}
