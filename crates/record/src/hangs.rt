// Whether a record hangs together.
ghost use Rattle.std.specs.Prelude.{◌≡◌, ◌&&◌, ◌+◌};
ghost use Rattle.wire.specs.Checks.{◌at_most◌};
ghost use Rattle.record.specs.Record.{lawful, highest, well_kept, hangs};

use crate::{Record, Session};
use held::hanging::is_in_place;

// The highest numbers that messages can have: the number after them still fits its field.
const UFO_HIGHEST: u64 = 4294967294;

const MEMX_HIGHEST: u64 = 18446744073709551614;

fn is_lawful(session: Session) -> bool
    ensures { result ≡ lawful session }
{
    match session {
        Session::Ufo(name) => text::is_name_then_spaces(name) & !text::is_blank_name(name),
        Session::Memx(_) => true,
    }
}

fn highest(session: Session) -> u64
    ensures { result ≡ highest session }
{
    match session {
        Session::Ufo(_) => UFO_HIGHEST,
        Session::Memx(_) => MEMX_HIGHEST,
    }
}

fn in_order(next: u64, top: u64, asked: u64, highest: u64) -> bool
    ensures { result ≡ (1 at_most next && next at_most top + 1 && asked at_most next && top at_most highest) }
{
    if next == 0 {
        return false;
    }
    (next - 1 <= top) & (asked <= next) & (top <= highest)
}

// All but what is held.
pub fn is_well_kept(kept: Record) -> bool
    ensures { result ≡ well_kept kept }
{
    let session = kept.session;
    let next = kept.next;
    let top = kept.top;
    let asked = kept.asked;
    in_order(next.0, top.0, asked.0, highest(session)) & is_lawful(session)
}

pub fn hangs_together(kept: Record) -> bool
    ensures { result ≡ hangs kept }
{
    let next = kept.next;
    let top = kept.top;
    is_well_kept(kept) & is_in_place(kept.held, next.0, top.0)
}
