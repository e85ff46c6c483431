// The record of a session: how it stands once it is opened, after each datagram, and once it has asked.
use crate::area;
use asking::Asked;
use book_lines::line::Line;
use book_lines::{entry, numbers, scan};
use book_page::page;
use held::slots;
use record::standing::Standing;
use record::{Record, Session, open, standing};
use std::io;
use wire::fields;
use wire::kinds::{Sequence, SessionId};

// A record, the area that lies ready for it, and how many bytes of that are lent.
#[derive(Clone, Copy)]
pub struct Tape {
    kept: Record,
    area: [u8; area::ROOM],
    size: usize,
}

// A range of missing numbers, as the record's own one at a place; noughts where there is none.
fn range(rt: &impl Print, label: &str, kept: Record, place: u64) -> io::Result<()> {
    match standing::missing_range(kept, place) {
        Err(why) => page::refused(rt, why),
        Ok(None) => print!(rt; "{label}0 to 0"),
        Ok(Some(range)) => print!(rt; "{label}{} to {}", range.first.0, range.last.0),
    }
}

fn stands(rt: &impl Print, kept: Record) -> io::Result<()> {
    match standing::standing_of(kept) {
        Err(why) => print!(rt; ", refused {}", why.number()),
        Ok(Standing::Complete) => print!(rt; ", missing none, complete yes"),
        Ok(Standing::Ongoing) => print!(rt; ", missing none, complete no"),
        Ok(Standing::Missing { ranges, first }) => {
            print!(rt; ", missing {} to {}", first.first.0, first.last.0)?;
            for place in 1..u64::from(ranges) {
                range(rt, ", ", kept, place)?;
            }
            print!(rt; ", complete no")
        }
    }
}

// The messages whose slots are full, by their numbers from N on.
fn held(rt: &impl Print, kept: Record) -> io::Result<()> {
    let next = kept.next.0;
    print!(rt; ", held")?;
    for ahead in 0..32 {
        if slots::is_ahead_full(kept.held, next, ahead) {
            print!(rt; " {}", next.wrapping_add(ahead))?;
        }
    }
    Ok(())
}

// What was asked from and what is held go without saying where there is none.
fn tell(rt: &impl Print, kept: Record) -> io::Result<()> {
    print!(rt; "\n= N {}, T {}", kept.next.0, kept.top.0)?;
    if kept.asked != Sequence(0) {
        print!(rt; ", A {}", kept.asked.0)?;
    }
    if kept.held != 0 {
        held(rt, kept)?;
    }
    stands(rt, kept)
}

// A name of ten bytes is a UFO session, a number of eight a MEMX one.
fn session(d: &[u8]) -> Option<Session> {
    match d.len() {
        8 => Some(Session::Memx(SessionId(fields::get8(d, 0)))),
        10 => Some(Session::Ufo(names::get_name(d, 0))),
        _ => None,
    }
}

// A record as the line says: the session's bytes, up to the word `next`, and decimal numbers, of which the session is counted as the
// first. Behind them stand the numbers of messages whose slots are full.
fn have(text: &[u8]) -> Record {
    let mut room = [0u8; 64];
    let (name, _) = scan::cut(text, b'n');
    Record {
        session: session(entry::bytes(name, &mut room)).unwrap_or(Session::Memx(SessionId(0))),
        next: Sequence(numbers::whole(text, 1)),
        top: Sequence(numbers::whole(text, 2)),
        ended: numbers::whole(text, 4) == 1,
        asked: Sequence(numbers::whole(text, 3)),
        held: area::bitmap(text, 5),
    }
}

// How many bytes were delivered goes without saying where the messages fill them.
fn delivered(
    rt: &impl Print,
    out: &[u8; page::ROOM],
    bytes: usize,
    next: Sequence,
    count: u32,
) -> io::Result<()> {
    print!(rt; "\n= delivered {count}")?;
    if page::messages(rt, out, 0, next, count)? != bytes {
        print!(rt; ", bytes {bytes}")?;
    }
    page::untouched(rt, out, bytes)
}

// The record after a datagram; after a refusal it is the one before.
fn taken(
    rt: &impl Print,
    kept: Record,
    area: &mut [u8],
    d: &[u8],
    room: usize,
) -> io::Result<Record> {
    let mut out = [page::UNTOUCHED; page::ROOM];
    let Some(lent) = out.get_mut(..room) else {
        return Ok(kept);
    };
    match taking::take(kept, area, d, lent) {
        Err(why) => {
            page::refused(rt, why)?;
            page::untouched(rt, &out, 0)?;
            Ok(kept)
        }
        Ok(took) => {
            delivered(rt, &out, took.bytes, kept.next, took.messages)?;
            Ok(took.after)
        }
    }
}

impl Tape {
    // Before any line has opened a record.
    pub fn fresh() -> Tape {
        Tape {
            kept: open::open_memx(SessionId(0)),
            area: [page::UNTOUCHED; area::ROOM],
            size: slots::AREA,
        }
    }

    // A record begins with an area of 32 slots, each of which begins with a byte that no length has.
    fn begin(&mut self, rt: &impl Print, kept: Record) -> io::Result<()> {
        *self = Tape {
            kept,
            area: [page::UNTOUCHED; area::ROOM],
            size: slots::AREA,
        };
        tell(rt, kept)
    }

    // Else the record is the one before.
    fn open(&mut self, rt: &impl Print, d: &[u8]) -> io::Result<()> {
        match session(d) {
            Some(Session::Memx(session)) => self.begin(rt, open::open_memx(session)),
            Some(Session::Ufo(name)) => match open::open_ufo(name) {
                Err(why) => page::refused(rt, why),
                Ok(opened) => self.begin(rt, opened),
            },
            None => Ok(()),
        }
    }

    // After a refusal the record is the one before, and where a line lends more than there is nothing is taken. All of the area is looked
    // at, not only what is lent of it.
    fn take(&mut self, rt: &impl Print, d: &[u8], room: usize) -> io::Result<()> {
        let before = self.area;
        let Some(area) = self.area.get_mut(..self.size) else {
            return Ok(());
        };
        self.kept = taken(rt, self.kept, area, d, room)?;
        area::changes(rt, &before, &self.area)?;
        tell(rt, self.kept)
    }

    // The rule comes first, then the time that has passed, then the sheet.
    fn ask(&mut self, rt: &impl Print, line: &Line<'_>) -> io::Result<()> {
        let rule = book_clock::rule(line, 4);
        let k = book_clock::size(rule);
        let sheet = book_clock::sheet(line, k.saturating_add(1));
        match asking::ask(self.kept, sheet, rule, numbers::fraction(line.text, k)) {
            Err(why) => page::refused(rt, why),
            Ok(Asked::Nothing) => print!(rt; "\n= nothing"),
            Ok(Asked::Wait) => print!(rt; "\n= wait"),
            Ok(
                Asked::Request {
                    first,
                    count,
                    after,
                },
            ) => {
                page::counted(rt, "\n= asks from ", first, count)?;
                self.kept = after;
                tell(rt, after)
            }
        }
    }

    // The area as a line says: bytes lie in a slot, or so many bytes of it are lent.
    fn lend(&mut self, line: &Line<'_>) {
        match line.letter(5) {
            Some(b's') => area::lay(line.text, &mut self.area),
            Some(_) => self.size = numbers::whole(line.text, 0) as usize,
            None => {}
        }
    }

    // The record after a line: `open`, `have`, `take`, `area`, `ask` or `range`.
    pub fn answer(&mut self, rt: &impl Print, line: &Line<'_>) -> io::Result<()> {
        match (line.letter(0), line.letter(1)) {
            (Some(b'o'), _) => self.open(rt, line.bytes),
            (Some(b'h'), _) => self.begin(rt, have(line.text)),
            (Some(b't'), _) => self.take(rt, line.bytes, line.mark.unwrap_or(page::ROOM)),
            (Some(b'a'), Some(b'r')) => {
                self.lend(line);
                Ok(())
            }
            (Some(b'a'), _) => self.ask(rt, line),
            _ => range(rt, "\n= ", self.kept, numbers::whole(line.text, 0)),
        }
    }
}
