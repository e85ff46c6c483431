// Delivering: the blocks of a packet after the first k, as they stand, and behind them those that are held and next.
ghost use Rattle.std.specs.Prelude.{◌+◌, length};
ghost use Rattle.wire.specs.Reply.{Settled};
ghost use Rattle.taking.specs.Delivering.{handed_own, handed, Handed};

use crate::batch::Batch;
use held::releasing::{Released, release};
use wire::output;
use wire::refusal::Refusal;

// Where nothing is held.
pub(crate) fn deliver_own(batch: Batch, k: u64, out: &mut [u8]) -> Result<usize, Refusal>
    ensures { Settled (handed_own k batch.entry.datagram.now batch.entry.place (length out.old))
        out.old result out.new }
{
    let from = blocks::skip(batch.datagram, batch.place, k)?;
    let bytes = batch.datagram.len() - from;
    if out.len() < bytes {
        return Err(Refusal::Room);
    }
    output::copy(out, 0, batch.datagram, from, bytes);
    Ok(bytes)
}

// How many were held and are released, and the bytes of all that is delivered.
pub(crate) fn deliver(
    batch: Batch,
    k: u64,
    held: u32,
    area: &[u8],
    out: &mut [u8],
) -> Result<Released, Refusal>
    ensures { Handed (handed k batch.entry.datagram.now batch.entry.place held area.now
        (batch.entry.first + batch.entry.count) (length out.old))
        out.old result out.new }
{
    let from = blocks::skip(batch.datagram, batch.place, k)?;
    let own = batch.datagram.len() - from;
    let more = release(held, batch.past(), area, out, own)?;
    output::copy(out, 0, batch.datagram, from, own);
    Ok(Released {
        messages: more.messages,
        bytes: own + more.bytes,
    })
}
