// Taking a datagram into a session record.
#![tactic(auto)]

mod batch;
mod deliver;
mod early;
mod tell;

ghost use Rattle.std.specs.Prelude.{◌≡◌, [], true, ◌+◌, ◌≤◌, ◌<◌, length};
ghost use Rattle.wire.specs.Checks.{◌told_by◌};
ghost use Rattle.held.specs.Hanging.{sound};
ghost use Rattle.record.specs.Record.{hangs};
ghost use Rattle.taking.specs.Taking.{taking, taken_of, Answered};
ghost use Rattle.taking.specs.Ways.{passing, TakesBatch};

use crate::batch::Batch;
use crate::deliver::{deliver, deliver_own};
use crate::early::hold_early;
use crate::tell::tell;
use held::hanging::is_whole;
use held::slots::free_from;
use record::Record;
use record::hangs::is_well_kept;
use reports::{Reported, report_of};
use wire::kinds::Sequence;
use wire::refusal::Refusal;

// How many bytes and messages went out, and the record afterwards.
#[derive(Clone, Copy)]
pub struct Taken {
    pub bytes: usize,
    pub messages: u32,
    pub after: Record,
}

// A packet that delivers nothing and holds nothing tells a top, and perhaps the end.
fn pass(kept: Record, top: u64, end: bool) -> Result<Taken, Refusal>
    ensures { result ≡ passing kept [] top end told_by taken_of }
{
    let after = tell(kept, top, end)?;
    Ok(Taken {
        bytes: 0,
        messages: 0,
        after,
    })
}

// The record's next message is among the packet's, and nothing is held: the blocks from there on are delivered. Most packets go this
// way, so it is one of its own: it does nothing that the next does not.
fn hand_over_own(kept: Record, batch: Batch, area: &[u8], out: &mut [u8]) -> Result<Taken, Refusal>
    requires { (kept.held ≡ 0) × (batch.first ≤ kept.next.0) × (kept.next.0 < batch.first + batch.count) }
    ensures { TakesBatch kept batch.entry area.now out.old
        result area.now out.new }
{
    let past = batch.past();
    let told = tell(kept, past - 1, false)?;
    let bytes = deliver_own(batch, kept.next.0 - batch.first, out)?;
    Ok(Taken {
        bytes,
        messages: (past - kept.next.0) as u32,
        after: Record {
            next: Sequence(past),
            held: 0,
            ..told
        },
    })
}

// The same where messages are held: those that are next then go out behind the packet's.
fn hand_over(kept: Record, batch: Batch, area: &[u8], out: &mut [u8]) -> Result<Taken, Refusal>
    requires { (hangs kept ≡ true) × (sound kept.held area.now ≡ true)
        × (batch.first ≤ kept.next.0) × (kept.next.0 < batch.first + batch.count) }
    ensures { TakesBatch kept batch.entry area.now out.old
        result area.now out.new }
{
    let past = batch.past();
    let told = tell(kept, past - 1, false)?;
    let held = free_from(kept.held, kept.next.0, past - kept.next.0);
    let given = deliver(batch, kept.next.0 - batch.first, held, area, out)?;
    let reached = past + given.messages as u64;
    Ok(Taken {
        bytes: given.bytes,
        messages: (reached - kept.next.0) as u32,
        after: Record {
            next: Sequence(reached),
            held: free_from(held, past, given.messages as u64),
            ..told
        },
    })
}

// Messages that come early are held; of any others those that are new go out.
fn take_messages(
    kept: Record,
    batch: Batch,
    area: &mut [u8],
    out: &mut [u8],
) -> Result<Taken, Refusal>
    requires { (hangs kept ≡ true) × (sound kept.held area.old ≡ true) }
    ensures { TakesBatch kept batch.entry area.old out.old
        result area.new out.new }
{
    let past = batch.past();
    if kept.next.0 < batch.first {
        return hold_early(kept, batch, area);
    }
    if past <= kept.next.0 {
        return pass(kept, past - 1, false);
    }
    if kept.held == 0 {
        return hand_over_own(kept, batch, area, out);
    }
    hand_over(kept, batch, area, out)
}

// The datagram is gone over three times at most: read, skipped to the next message, copied from there.
pub fn take(
    kept: Record,
    area: &mut [u8],
    datagram: &[u8],
    out: &mut [u8],
) -> Result<Taken, Refusal>
    ensures { Answered (taking kept area.old datagram.now (length out.old))
        area.old out.old result area.new out.new }
{
    if !is_well_kept(kept) || !is_whole(kept.held, kept.next.0, kept.top.0, area) {
        return Err(Refusal::Broken);
    }
    let report = report_of(kept.session, datagram)?;
    match report {
        Reported::Messages {
            first,
            count,
            place,
        } => {
            let batch = Batch {
                first: first.0,
                count,
                datagram,
                place,
            };
            take_messages(kept, batch, area, out)
        }
        Reported::News { highest } => pass(kept, highest.0, false),
        Reported::End { total } => pass(kept, total.0, true),
    }
}
