// MEMX-UDP laid flat: a packet read, and one written from its fields.
#![tactic(auto)]

ghost use Rattle.std.specs.Prelude.{◌≡◌, length, if◌then◌else◌};
ghost use Rattle.wire.specs.Checks.{◌at_most◌};
ghost use Rattle.wire.specs.Reply.{Settled};
ghost use Rattle.wire.specs.declared.refusal.Refusal.TheVariants.{Framing, Form};
ghost use Rattle.flat.specs.Wrote.{FlatSettled};
ghost use Rattle.flat_memx.specs.Reading.{flat_memx, memx_read};
ghost use Rattle.flat_memx.specs.Writing.{memx_reply};

use flat::wrote;
use flat::wrote::Wrote;
use flat_packet::fitting::unfit;
use flat_packet::{Packet, Read};
use memx::layout;
use memx::layout::Kind;
use memx::reading::{Memx, Says};
use wire::kinds::{Sequence, SessionId};
use wire::refusal::Refusal;

// The packet has `size` bytes.
fn flat_of(said: Result<Memx, Refusal>, size: u64) -> Read
    ensures { result ≡ flat_memx size said }
{
    let packet = match said {
        Err(why) => return flat_packet::no_packet(why),
        Ok(packet) => packet,
    };
    let session = packet.session.0;
    let extra = packet.extra;
    match packet.says {
        Says::Heartbeat(highest) => {
            flat_packet::broadcast(Kind::Heartbeat.byte(), session, highest.0, 0, extra, 0, 0)
        }
        Says::Shutdown(highest) => {
            flat_packet::broadcast(Kind::Shutdown.byte(), session, highest.0, 0, extra, 0, 0)
        }
        Says::Messages { first, count } => flat_packet::broadcast(
            Kind::Messages.byte(),
            session,
            first.0,
            count,
            extra,
            layout::BLOCKS as u64 + extra as u64,
            size,
        ),
    }
}

pub fn read(packet: &[u8]) -> Read
    ensures { result ≡ memx_read packet.now }
{
    flat_of(memx::reading::read(packet), packet.len() as u64)
}

// Why a heartbeat or shutdown can't have a body, if the packet is not over the limit.
fn bodiless(extra: &[u8]) -> Refusal
    ensures { result ≡ (if length extra.now at_most 237 then Framing else Form) }
{
    if layout::MOST_EXTRA < extra.len() {
        Refusal::Form
    } else {
        Refusal::Framing
    }
}

fn written(fields: Packet, extra: &[u8], body: &[u8], out: &mut [u8]) -> Result<usize, Refusal>
    ensures { Settled (memx_reply fields extra.now body.now (length out.old))
        out.old result out.new }
{
    let session = SessionId(fields.session);
    let number = Sequence(fields.number);
    let header = layout::HEADER + extra.len();
    let kind = match Kind::try_from(fields.kind) {
        Err(why) => return unfit(layout::LIMIT, header, body, why),
        Ok(kind) => kind,
    };
    if kind != Kind::Messages && !body.is_empty() {
        return unfit(layout::LIMIT, header, body, bodiless(extra));
    }
    match kind {
        Kind::Heartbeat => memx_write::write_heartbeat(session, number, extra, out),
        Kind::Shutdown => memx_write::write_shutdown(session, number, extra, out),
        Kind::Messages => {
            memx_write::write_messages(session, number, fields.count, extra, body, out)
        }
    }
}

// The header's extra bytes are given: fields.extra is not looked at.
#[tactic(auto, using(flat::proofs::Flattening::flattens))]
pub fn write(fields: Packet, extra: &[u8], body: &[u8], out: &mut [u8]) -> Wrote
    ensures { FlatSettled (memx_reply fields extra.now body.now (length out.old))
        out.old result out.new }
{
    wrote::wrote_of(written(fields, extra, body, out))
}
