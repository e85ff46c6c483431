// The session record: taking datagrams, and how it stands.
ghost use Rattle.std.specs.Prelude.{◌≡◌, length};
ghost use Rattle.flat_record.specs.Keeping.{session_of, record_of, readable, known_record, flat_record, flat_taken, FlatAnswered};
ghost use Rattle.flat_record.specs.Keeping.{flat_standing, flat_range, take_verdict, standing_answer, range_answer};

use flat::flag;
use flat::name::name_of;
use missing::Range;
use record::standing::Standing;
use record::{Record, Session, standing};
use taking::Taken;
use wire::kinds::{Sequence, SessionId};
use wire::refusal::Refusal;

// style: 1 UFO, with the name; 2 MEMX-UDP, with the session.
#[repr(C)]
#[derive(Clone, Copy)]
pub struct FlatRecord {
    pub style: u8,
    pub ended: u8,
    pub name: [u8; 10],
    pub session: u64,
    pub next: u64,
    pub top: u64,
    pub asked: u64,
    // Bit i is 1 where slot i of the held area is full.
    pub held: u32,
}

#[repr(C)]
#[derive(Clone, Copy)]
pub struct FlatTaken {
    pub refusal: u64,
    pub bytes: u64,
    pub messages: u64,
    pub after: FlatRecord,
}

// missing: how many ranges are; first to last is the first of them.
#[repr(C)]
#[derive(Clone, Copy)]
pub struct FlatStanding {
    pub refusal: u64,
    pub complete: u8,
    pub missing: u8,
    pub first: u64,
    pub last: u64,
}

#[repr(C)]
#[derive(Clone, Copy)]
pub struct FlatRange {
    pub refusal: u64,
    pub first: u64,
    pub last: u64,
}

// A MEMX record's name and a UFO record's session are not looked at.
fn session_of(given: FlatRecord) -> Session
    ensures { result ≡ session_of given }
{
    if given.style == 1 {
        Session::Ufo(name_of(&given.name))
    } else {
        Session::Memx(SessionId(given.session))
    }
}

fn is_readable(given: FlatRecord) -> bool
    ensures { result ≡ readable given }
{
    (given.style == 1 || given.style == 2) && flag::is_flag(given.ended)
}

fn record_of(given: FlatRecord) -> Record
    ensures { result ≡ record_of given }
{
    Record {
        session: session_of(given),
        next: Sequence(given.next),
        top: Sequence(given.top),
        ended: given.ended == 1,
        asked: Sequence(given.asked),
        held: given.held,
    }
}

// The record that a flat one is, if its style and its flag are such.
pub(crate) fn known_record(given: FlatRecord) -> Result<Record, Refusal>
    ensures { result ≡ known_record given }
{
    if is_readable(given) {
        Ok(record_of(given))
    } else {
        Err(Refusal::Broken)
    }
}

pub(crate) fn flat_record(given: FlatRecord, after: Record) -> FlatRecord
    ensures { result ≡ flat_record given after }
{
    FlatRecord {
        ended: flag::byte_of(after.ended),
        next: after.next.0,
        top: after.top.0,
        asked: after.asked.0,
        held: after.held,
        ..given
    }
}

fn flat_taken(given: FlatRecord, answer: Result<Taken, Refusal>) -> FlatTaken
    ensures { result ≡ flat_taken given answer }
{
    match answer {
        Err(why) => FlatTaken {
            refusal: why.number() as u64,
            bytes: 0,
            messages: 0,
            after: given,
        },
        Ok(taken) => FlatTaken {
            refusal: 0,
            bytes: taken.bytes as u64,
            messages: taken.messages as u64,
            after: flat_record(given, taken.after),
        },
    }
}

fn flat_standing(answer: Result<Standing, Refusal>) -> FlatStanding
    ensures { result ≡ flat_standing answer }
{
    let ongoing = FlatStanding {
        refusal: 0,
        complete: 0,
        missing: 0,
        first: 0,
        last: 0,
    };
    match answer {
        Err(why) => FlatStanding {
            refusal: why.number() as u64,
            ..ongoing
        },
        Ok(Standing::Complete) => FlatStanding {
            complete: 1,
            ..ongoing
        },
        Ok(Standing::Ongoing) => ongoing,
        Ok(Standing::Missing { ranges, first }) => FlatStanding {
            missing: ranges,
            first: first.first.0,
            last: first.last.0,
            ..ongoing
        },
    }
}

fn flat_range(answer: Result<Option<Range>, Refusal>) -> FlatRange
    ensures { result ≡ flat_range answer }
{
    match answer {
        Err(why) => FlatRange {
            refusal: why.number() as u64,
            first: 0,
            last: 0,
        },
        Ok(None) => FlatRange {
            refusal: 0,
            first: 0,
            last: 0,
        },
        Ok(Some(range)) => FlatRange {
            refusal: 0,
            first: range.first.0,
            last: range.last.0,
        },
    }
}

pub fn take(given: FlatRecord, area: &mut [u8], datagram: &[u8], out: &mut [u8]) -> FlatTaken
    ensures { FlatAnswered (take_verdict given area.old datagram.now (length out.old))
        given area.old out.old result area.new out.new }
{
    match known_record(given) {
        Ok(kept) => flat_taken(given, taking::take(kept, area, datagram, out)),
        Err(why) => flat_taken(given, Err(why)),
    }
}

pub fn standing_of(given: FlatRecord) -> FlatStanding
    ensures { result ≡ standing_answer given }
{
    flat_standing(known_record(given).and_then(standing::standing_of))
}

// The missing range at a place, counted from 0; noughts where there is none.
pub fn missing_range(given: FlatRecord, place: u64) -> FlatRange
    ensures { result ≡ range_answer given place }
{
    flat_range(known_record(given).and_then(|kept| standing::missing_range(kept, place)))
}
