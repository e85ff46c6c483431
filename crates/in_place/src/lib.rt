// The session record where it lies: a step is tried on a copy, and what comes back is stored only if the step was taken.
#![tactic(auto)]

ghost use Rattle.std.specs.Prelude.{length};
ghost use Rattle.taking.specs.Taking.{taking};
ghost use Rattle.asking.specs.Asking.{asking};
ghost use Rattle.in_place.specs.Lent.{TakenLent, AskedLent};

use asking::{Asked, ask};
use clock::patience::Patience;
use clock::sheet::Sheet;
use record::Record;
use taking::{Taken, take};
use wire::refusal::Refusal;

// The same answers as `take`.
pub fn take_lent(
    kept: &mut Record,
    area: &mut [u8],
    datagram: &[u8],
    out: &mut [u8],
) -> Result<Taken, Refusal>
    ensures { TakenLent (taking kept.old area.old datagram.now (length out.old))
        kept.old area.old out.old result area.new out.new kept.new }
{
    let taken = take(*kept, area, datagram, out)?;
    *kept = taken.after;
    Ok(taken)
}

// The same answers as `ask`.
pub fn ask_lent(
    kept: &mut Record,
    sheet: Sheet,
    rule: Patience,
    elapsed: f64,
) -> Result<Asked, Refusal>
    ensures { AskedLent (asking kept.old sheet rule elapsed) kept.old result kept.new }
{
    let asked = ask(*kept, sheet, rule, elapsed)?;
    if let Asked::Request { after, .. } = asked {
        *kept = after;
    }
    Ok(asked)
}
