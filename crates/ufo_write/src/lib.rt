// UFO, server to client: packets laid into lent output.
#![tactic(auto)]

ghost use Rattle.std.specs.Prelude.{length};
ghost use Rattle.names.specs.Names.{name_bytes};
ghost use Rattle.wire.specs.Reply.{Settled};
ghost use Rattle.ufo_write.specs.WriteDown.{accept_reply, reject_reply, messages_reply, end_reply};

use ufo::down::HIGHEST;
use wire::datagram::LIMIT;
use wire::kinds::{Name, Sequence};
use wire::refusal::Refusal;
use wire::{fields, output};

pub fn write_accept(session: Name, next: Sequence, out: &mut [u8]) -> Result<usize, Refusal>
    ensures { Settled (accept_reply (name_bytes session) next.0 (length out.old))
        out.old result out.new }
{
    if !text::is_name_then_spaces(session) {
        return Err(Refusal::Form);
    }
    if text::is_blank_name(session) {
        return Err(Refusal::Absent);
    }
    let number = next.0;
    if number == 0 {
        return Err(Refusal::Absent);
    }
    if HIGHEST < number {
        return Err(Refusal::Bound);
    }
    if out.len() < 15 {
        return Err(Refusal::Room);
    }
    out[0] = b'A';
    names::put_name(out, 1, session);
    fields::put4(out, 11, number as u32);
    Ok(15)
}

pub fn write_reject(reason: u8, out: &mut [u8]) -> Result<usize, Refusal>
    ensures { Settled (reject_reply reason (length out.old)) out.old result out.new }
{
    match reason {
        b'A' | b'S' => {
            if out.len() < 2 {
                return Err(Refusal::Room);
            }
            out[0] = b'J';
            out[1] = reason;
            Ok(2)
        }
        _ => Err(Refusal::Form),
    }
}

// The blocks are lent as they are to stand; none, with the count 0, is a heartbeat.
pub fn write_messages(
    first: Sequence,
    count: u16,
    blocks: &[u8],
    out: &mut [u8],
) -> Result<usize, Refusal>
    ensures { Settled (messages_reply first.0 count blocks.now (length out.old))
        out.old result out.new }
{
    let size = 7 + blocks.len();
    if LIMIT < size {
        return Err(Refusal::Overlong);
    }
    if !blocks::exactly(blocks, 0, count) {
        return Err(Refusal::Framing);
    }
    let number = first.0;
    if number == 0 {
        return Err(Refusal::Absent);
    }
    if HIGHEST - (count as u64) < number {
        return Err(Refusal::Bound);
    }
    if out.len() < size {
        return Err(Refusal::Room);
    }
    out[0] = b'S';
    fields::put4(out, 1, number as u32);
    fields::put2(out, 5, count);
    output::copy(out, 7, blocks, 0, blocks.len());
    Ok(size)
}

pub fn write_end(total: Sequence, out: &mut [u8]) -> Result<usize, Refusal>
    ensures { Settled (end_reply total.0 (length out.old)) out.old result out.new }
{
    let number = total.0;
    if HIGHEST <= number {
        return Err(Refusal::Bound);
    }
    if out.len() < 5 {
        return Err(Refusal::Room);
    }
    out[0] = b'E';
    fields::put4(out, 1, number as u32);
    Ok(5)
}
