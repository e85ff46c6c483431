// What to ask now.
#![tactic(auto)]

ghost use Rattle.std.specs.Prelude.{◌≡◌, ◌≤◌};
ghost use Rattle.wire.specs.Checks.{◌told_by◌};
ghost use Rattle.asking.specs.Asking.{request_of, wish, asking, asked_of};

use clock::patience;
use clock::patience::Patience;
use clock::sheet::Sheet;
use record::Record;
use record::hangs::hangs_together;
use wire::kinds::Sequence;
use wire::refusal::Refusal;

// The most messages that a request can name: its count has two bytes.
const MOST: u64 = 65535;

#[derive(Clone, Copy)]
pub enum Asked {
    // Nothing is missing.
    Nothing,
    // It was asked for, and the wait is not over.
    Wait,
    Request {
        first: Sequence,
        count: u16,
        after: Record,
    },
}

fn request(kept: Record) -> Asked
    requires { kept.next.0 ≤ kept.top.0 }
    ensures { result ≡ asked_of (request_of kept) }
{
    let range = missing::at(kept.held, kept.next.0, kept.top.0, 0).unwrap();
    let others = range.last.0 - range.first.0;
    Asked::Request {
        first: range.first,
        count: others.saturating_add(1).min(MOST) as u16,
        after: Record {
            asked: kept.next,
            ..kept
        },
    }
}

fn wish(kept: Record, late: bool) -> Asked
    ensures { result ≡ asked_of (wish kept late) }
{
    if kept.top < kept.next {
        return Asked::Nothing;
    }
    if kept.asked == kept.next && !late {
        return Asked::Wait;
    }
    request(kept)
}

pub fn ask(kept: Record, sheet: Sheet, rule: Patience, elapsed: f64) -> Result<Asked, Refusal>
    ensures { result ≡ asking kept sheet rule elapsed told_by asked_of }
{
    if !hangs_together(kept) {
        return Err(Refusal::Broken);
    }
    let late = patience::wait_over(sheet, rule, elapsed)?;
    Ok(wish(kept, late))
}
