// Messages that come early are held.
ghost use Rattle.std.specs.Prelude.{◌≡◌, ◌<◌, true, []};
ghost use Rattle.held.specs.Holding.{hold_all, Held};
ghost use Rattle.record.specs.Record.{hangs};
ghost use Rattle.reports.specs.Reports.{blocks_from};
ghost use Rattle.taking.specs.Ways.{TakesBatch};

use crate::Taken;
use crate::batch::Batch;
use crate::tell::tell;
use held::holding::hold;
use record::Record;
use wire::refusal::Refusal;

// Each message is tried at its slot; the bitmap afterwards.
fn hold_each(held: u32, next: u64, batch: Batch, area: &mut [u8]) -> u32
    ensures { Held (hold_all next (record { held = held; area = area.old }) batch.entry.first
        (blocks_from batch.entry.datagram.now batch.entry.place batch.entry.count)) result area.new }
{
    let mut kept = held;
    let mut at = batch.place;
    for k in 0..batch.count {
        let block = blocks::next(batch.datagram, at).unwrap();
        let message = &batch.datagram[block.start..block.next];
        kept = hold(kept, next, batch.first + k as u64, message, area);
        at = block.next;
    }
    kept
}

// Nothing goes out, so there is no output.
pub(crate) fn hold_early(kept: Record, batch: Batch, area: &mut [u8]) -> Result<Taken, Refusal>
    requires { (hangs kept ≡ true) × (kept.next.0 < batch.first) }
    ensures { TakesBatch kept batch.entry area.old []
        result area.new [] }
{
    let told = tell(kept, batch.past() - 1, false)?;
    let held = hold_each(kept.held, kept.next.0, batch, area);
    Ok(Taken {
        bytes: 0,
        messages: 0,
        after: Record { held, ..told },
    })
}
