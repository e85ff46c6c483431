// Opening a record.
ghost use Rattle.std.specs.Prelude.{◌≡◌};
ghost use Rattle.flat_record.specs.Opening.{bare, flat_opened, open_ufo, open_memx};

use crate::keeping;
use crate::keeping::FlatRecord;
use flat::name::name_of;
use record::{Record, open};
use wire::kinds::SessionId;
use wire::refusal::Refusal;

#[repr(C)]
#[derive(Clone, Copy)]
pub struct FlatOpened {
    pub refusal: u64,
    pub opened: FlatRecord,
}

fn bare(style: u8, name: [u8; 10], session: u64) -> FlatRecord
    ensures { result ≡ bare style name session }
{
    FlatRecord {
        style,
        ended: 0,
        name,
        session,
        next: 0,
        top: 0,
        asked: 0,
        held: 0,
    }
}

fn flat_opened(given: FlatRecord, answer: Result<Record, Refusal>) -> FlatOpened
    ensures { result ≡ flat_opened given answer }
{
    match answer {
        Err(why) => FlatOpened {
            refusal: why.number() as u64,
            opened: bare(0, [0; 10], 0),
        },
        Ok(fresh) => FlatOpened {
            refusal: 0,
            opened: keeping::flat_record(given, fresh),
        },
    }
}

pub fn open_ufo(name: &[u8; 10]) -> FlatOpened
    ensures { result ≡ open_ufo name.now }
{
    flat_opened(bare(1, *name, 0), open::open_ufo(name_of(name)))
}

pub fn open_memx(session: u64) -> FlatOpened
    ensures { result ≡ open_memx session }
{
    flat_opened(
        bare(2, [0; 10], session),
        Ok(open::open_memx(SessionId(session))),
    )
}
