// MEMX-UDP: packets laid into lent output, from its start.
#![tactic(auto)]

ghost use Rattle.std.specs.Prelude.{◌≡◌, [], ◌+◌, ◌≤◌, length};
ghost use Rattle.std.proofs.lemmas.List.Edits.{sets};
ghost use Rattle.wire.specs.Reply.{Settled};
ghost use Rattle.memx.specs.Packet.{heartbeat, shutdown, header_size, headed, laid};
ghost use Rattle.memx.specs.Reading.{byte_of};
ghost use Rattle.memx_write.specs.Writing.{sent, reply};

use memx::layout;
use memx::layout::Kind;
use wire::kinds::{Sequence, SessionId};
use wire::refusal::Refusal;
use wire::{fields, output};

fn put_header(out: &mut [u8], kind: Kind, session: SessionId, number: Sequence, extra: &[u8])
    requires { (length extra.now ≤ 237) × (header_size + length extra.now ≤ length out.old) }
    ensures { out.new ≡ sets out.old 0 (headed (byte_of kind) session.0 number.0 extra.now []) }
{
    let id = session.0;
    let n = number.0;
    let length = extra.len();
    out[0] = kind.byte();
    out[1] = (layout::HEADER + length) as u8;
    fields::put8(out, layout::SESSION, id);
    fields::put8(out, layout::NUMBER, n);
    output::copy(out, layout::HEADER, extra, 0, length);
}

fn put_messages(
    out: &mut [u8],
    session: SessionId,
    first: Sequence,
    count: u16,
    extra: &[u8],
    blocks: &[u8],
)
    requires { (length extra.now ≤ 237) × (header_size + length extra.now + 2 + length blocks.now ≤ length out.old) }
    ensures { out.new ≡ sets out.old 0
        (laid session.0 first.0 count extra.now blocks.now) }
{
    let header = layout::HEADER + extra.len();
    put_header(out, Kind::Messages, session, first, extra);
    fields::put2(out, header, count);
    output::copy(out, header + 2, blocks, 0, blocks.len());
}

// Heartbeat and shutdown differ in their type alone.
fn write_news(
    kind: Kind,
    session: SessionId,
    highest: Sequence,
    extra: &[u8],
    out: &mut [u8],
) -> Result<usize, Refusal>
    requires { byte_of kind ≤ 1 }
    ensures { Settled (sent (headed (byte_of kind) session.0 highest.0 extra.now []) (length out.old))
        out.old result out.new }
{
    let header = layout::HEADER + extra.len();
    if layout::LIMIT < header {
        return Err(Refusal::Overlong);
    }
    if layout::MOST_EXTRA < extra.len() {
        return Err(Refusal::Form);
    }
    if highest.0 == layout::CEILING {
        return Err(Refusal::Bound);
    }
    if out.len() < header {
        return Err(Refusal::Room);
    }
    put_header(out, kind, session, highest, extra);
    Ok(header)
}

// `extra` are the header's bytes past its own fields.
#[tactic(auto, unfolding(memx::specs::Packet::write))]
pub fn write_heartbeat(
    session: SessionId,
    highest: Sequence,
    extra: &[u8],
    out: &mut [u8],
) -> Result<usize, Refusal>
    ensures { Settled (reply (heartbeat session.0 highest.0 extra.now) (length out.old))
        out.old result out.new }
{
    write_news(Kind::Heartbeat, session, highest, extra, out)
}

#[tactic(auto, unfolding(memx::specs::Packet::write))]
pub fn write_shutdown(
    session: SessionId,
    highest: Sequence,
    extra: &[u8],
    out: &mut [u8],
) -> Result<usize, Refusal>
    ensures { Settled (reply (shutdown session.0 highest.0 extra.now) (length out.old))
        out.old result out.new }
{
    write_news(Kind::Shutdown, session, highest, extra, out)
}

// The messages stand in `blocks` already, each a block.
pub fn write_messages(
    session: SessionId,
    first: Sequence,
    count: u16,
    extra: &[u8],
    blocks: &[u8],
    out: &mut [u8],
) -> Result<usize, Refusal>
    ensures { Settled (sent (laid session.0 first.0 count extra.now blocks.now)
        (length out.old)) out.old result out.new }
{
    let more = extra.len();
    let place = layout::BLOCKS + more;
    if layout::LIMIT < place {
        return Err(Refusal::Overlong);
    }
    if layout::LIMIT - place < blocks.len() {
        return Err(Refusal::Overlong);
    }
    if layout::MOST_EXTRA < more {
        return Err(Refusal::Form);
    }
    if !blocks::exactly(blocks, 0, count) {
        return Err(Refusal::Framing);
    }
    let number = first.0;
    if number == 0 {
        return Err(Refusal::Absent);
    }
    if count == 0 {
        return Err(Refusal::Absent);
    }
    if layout::CEILING - number < count as u64 {
        return Err(Refusal::Bound);
    }
    let size = place + blocks.len();
    if out.len() < size {
        return Err(Refusal::Room);
    }
    put_messages(out, session, first, count, extra, blocks);
    Ok(size)
}
