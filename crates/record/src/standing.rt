// How a record stands: complete, ongoing, or something missing.
ghost use Rattle.std.specs.Prelude.{◌≡◌};
ghost use Rattle.wire.specs.Checks.{◌told_by◌};
ghost use Rattle.record.specs.Standing.{standing, standing_of, range_at};

use crate::Record;
use crate::hangs::hangs_together;
use missing::Range;
use wire::refusal::Refusal;

#[derive(Clone, Copy)]
pub enum Standing {
    // Every message up to the end was delivered.
    Complete,
    // Nothing is missing, but no end was heard.
    Ongoing,
    // So many ranges are missing; this is the first of them.
    Missing { ranges: u8, first: Range },
}

pub fn standing_of(kept: Record) -> Result<Standing, Refusal>
    ensures { result ≡ standing kept told_by standing_of }
{
    if !hangs_together(kept) {
        return Err(Refusal::Broken);
    }
    let next = kept.next.0;
    let top = kept.top.0;
    Ok(match missing::at(kept.held, next, top, 0) {
        Some(first) => Standing::Missing {
            ranges: missing::count(kept.held, next, top),
            first,
        },
        None if kept.ended => Standing::Complete,
        None => Standing::Ongoing,
    })
}

// The missing range at a place, counted from 0, if there is one.
pub fn missing_range(kept: Record, place: u64) -> Result<Option<Range>, Refusal>
    ensures { result ≡ range_at kept place }
{
    if hangs_together(kept) {
        Ok(missing::at(kept.held, kept.next.0, kept.top.0, place))
    } else {
        Err(Refusal::Broken)
    }
}
