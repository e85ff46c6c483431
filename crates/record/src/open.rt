// Opening a record.
ghost use Rattle.std.specs.Prelude.{◌≡◌};
ghost use Rattle.record.specs.Record.{fresh, opening};
ghost use Rattle.record.specs.declared.Session.TheVariants.{Memx};

use crate::{Record, Session};
use wire::kinds::{Name, Sequence, SessionId};
use wire::refusal::Refusal;

fn fresh(session: Session) -> Record
    ensures { result ≡ fresh session }
{
    Record {
        session,
        next: Sequence(1),
        top: Sequence(0),
        ended: false,
        asked: Sequence(0),
        held: 0,
    }
}

pub fn open_ufo(name: Name) -> Result<Record, Refusal>
    ensures { result ≡ opening name }
{
    if !text::is_name_then_spaces(name) {
        return Err(Refusal::Form);
    }
    if text::is_blank_name(name) {
        return Err(Refusal::Absent);
    }
    Ok(fresh(Session::Ufo(name)))
}

pub fn open_memx(session: SessionId) -> Record
    ensures { result ≡ fresh (Memx session) }
{
    fresh(Session::Memx(session))
}
