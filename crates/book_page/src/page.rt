// The page: words, numbers and bytes written to standard output. An answer begins on a new line.
use std::io;
use wire::kinds::{Name, Password, Sequence, User};
use wire::refusal::Refusal;

// The room for what a line spells, and for what the desk writes: enough for the longest packet, and for what is looked at behind it.
pub const ROOM: usize = 65600;

// What stands in lent output before the desk writes.
pub const UNTOUCHED: u8 = b'~';

// A longer text is told by its length.
const LONGEST_TEXT: usize = 40;

// A longer packet is told by its first bytes.
const LONGEST_PACKET: usize = 48;

pub fn refused(rt: &impl Print, why: Refusal) -> io::Result<()> {
    let number = why.number();
    print!(rt; "\n= refused {number}")
}

pub fn hex(rt: &impl Print, s: &[u8]) -> io::Result<()> {
    for b in s {
        print!(rt; "{b:02X}")?;
    }
    Ok(())
}

pub fn text(rt: &impl Print, label: &str, said: &[u8]) -> io::Result<()> {
    let length = said.len();
    if LONGEST_TEXT < length {
        return print!(rt; "{label} of {length} bytes");
    }
    print!(rt; "{label} \"")?;
    rt.write_all(said)?;
    print!(rt; "\"")
}

// Bytes that are no text are told in hexadecimal, unless there are too many.
pub fn raw(rt: &impl Print, label: &str, said: &[u8]) -> io::Result<()> {
    if LONGEST_TEXT < said.len() {
        return text(rt, label, said);
    }
    print!(rt; "{label} ")?;
    hex(rt, said)
}

fn within(s: &[u8], start: usize, length: usize) -> Option<&[u8]> {
    s.get(start..)?.get(..length)
}

// A text that stands at a place of a packet.
pub fn part(rt: &impl Print, label: &str, s: &[u8], start: usize, length: usize) -> io::Result<()> {
    match within(s, start, length) {
        Some(said) => text(rt, label, said),
        None => Ok(()),
    }
}

pub fn name(rt: &impl Print, label: &str, n: Name) -> io::Result<()> {
    text(rt, label, &names::name_bytes(n))
}

pub fn login(rt: &impl Print, user: User, secret: Password, session: Name) -> io::Result<()> {
    text(rt, ", user", &names::user_bytes(user))?;
    name(rt, ", password", secret.0)?;
    name(rt, ", session", session)
}

// A number, and how many messages there are from it on.
pub fn counted(rt: &impl Print, label: &str, first: Sequence, count: u16) -> io::Result<()> {
    let first = first.0;
    print!(rt; "{label}{first}, count {count}")
}

pub fn letter(rt: &impl Print, label: &str, b: u8) -> io::Result<()> {
    print!(rt; "{label}")?;
    rt.write_all(&[b])
}

pub fn rejected(rt: &impl Print, reason: u8) -> io::Result<()> {
    letter(rt, "\n= rejected, reason ", reason)
}

// The message in the block at a place, and the place after it.
fn block(rt: &impl Print, s: &[u8], place: usize, named: u64) -> io::Result<usize> {
    let Ok(block) = blocks::next(s, place) else {
        return Ok(place);
    };
    print!(rt; ", {named}")?;
    part(rt, "", s, block.start, block.length)?;
    Ok(block.next)
}

// So many messages, in blocks from a place on, and the place after them. A number past 2^64-1 is never named: no reader takes it.
pub fn messages(
    rt: &impl Print,
    s: &[u8],
    place: usize,
    first: Sequence,
    count: u32,
) -> io::Result<usize> {
    let mut at = place;
    for ahead in 0..u64::from(count) {
        at = block(rt, s, at, first.0.wrapping_add(ahead))?;
    }
    Ok(at)
}

// What a packet of messages says.
pub fn packet(
    rt: &impl Print,
    s: &[u8],
    place: usize,
    first: Sequence,
    count: u16,
) -> io::Result<()> {
    counted(rt, "\n= messages from ", first, count)?;
    messages(rt, s, place, first, u32::from(count))?;
    Ok(())
}

// All of lent output from a place on is looked at.
pub fn untouched(rt: &impl Print, out: &[u8; ROOM], place: usize) -> io::Result<()> {
    if out.iter().skip(place).any(|b| *b != UNTOUCHED) {
        return print!(rt; ", touched");
    }
    Ok(())
}

pub fn written(rt: &impl Print, out: &[u8], length: usize) -> io::Result<()> {
    let Some(wrote) = out.get(..length) else {
        return Ok(());
    };
    if length <= LONGEST_PACKET {
        print!(rt; ", ")?;
        hex(rt, wrote)
    } else {
        print!(rt; ", beginning ")?;
        hex(rt, &wrote[..8])
    }
}

// What a writer answers, and the bytes that it wrote.
pub fn wrote(
    rt: &impl Print,
    label: &str,
    said: Result<usize, Refusal>,
    out: &[u8; ROOM],
) -> io::Result<()> {
    match said {
        Err(why) => {
            refused(rt, why)?;
            untouched(rt, out, 0)
        }
        Ok(length) => {
            print!(rt; "{label}{length}")?;
            written(rt, out, length)?;
            untouched(rt, out, length)
        }
    }
}
