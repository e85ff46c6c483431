// What a packet tells beside its messages: a top, and perhaps the end.
ghost use Rattle.std.specs.Prelude.{◌≡◌, [], ◌∷◌, not};
ghost use Rattle.wire.specs.Checks.{◌else◌, checked, taken};
ghost use Rattle.wire.specs.declared.refusal.Refusal.TheVariants.{Contradiction};
ghost use Rattle.taking.specs.Taking.{clash, told};

use record::Record;
use wire::kinds::Sequence;
use wire::refusal::Refusal;

fn contradicts(kept: Record, top: u64, end: bool) -> bool
    ensures { result ≡ clash kept top end }
{
    kept.ended & (kept.top.0 < top) | end & (top < kept.top.0)
}

// The record once it is told.
pub(crate) fn tell(kept: Record, top: u64, end: bool) -> Result<Record, Refusal>
    ensures { result ≡ checked ((not (clash kept top end) else Contradiction) ∷ [])
        (taken (told kept kept.next.0 kept.held top end)) }
{
    if contradicts(kept, top, end) {
        return Err(Refusal::Contradiction);
    }
    Ok(Record {
        top: Sequence(kept.top.0.max(top)),
        ended: kept.ended | end,
        ..kept
    })
}
