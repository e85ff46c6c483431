// UFO packets, as their readers take them.
use book_page::page;
use std::io;
use ufo::down;
use ufo::down::Down;
use ufo_up::up;
use ufo_up::up::Up;

fn tell(rt: &impl Print, said: Down, d: &[u8]) -> io::Result<()> {
    match said {
        Down::Accept { session, next } => {
            print!(rt; "\n= accepted, next {}", next.0)?;
            page::name(rt, ", session", session)
        }
        Down::Reject { reason } => page::rejected(rt, reason),
        Down::Messages { first, count } => page::packet(rt, d, 7, first, count),
        Down::End { total } => print!(rt; "\n= end, total {}", total.0),
    }
}

pub fn down(rt: &impl Print, d: &[u8]) -> io::Result<()> {
    match down::read_down(d) {
        Err(why) => page::refused(rt, why),
        Ok(said) => tell(rt, said, d),
    }
}

// What a message of a packet says.
fn message(rt: &impl Print, d: &[u8], said: Up) -> io::Result<()> {
    match said {
        Up::Login {
            user,
            password,
            session,
        } => {
            print!(rt; ", login")?;
            page::login(rt, user, password, session)
        }
        Up::Request { first, count } => page::counted(rt, ", asks from ", first, count),
        Up::Unsequenced { start, length } => page::part(rt, ", data", d, start, length),
        Up::Heartbeat => print!(rt; ", heartbeat"),
        Up::Logout => print!(rt; ", logout"),
    }
}

// The message at a place, and the place after it, if one stands there.
fn message_at(rt: &impl Print, d: &[u8], place: usize) -> io::Result<Option<usize>> {
    match up::read_message(d, place) {
        Err(why) => {
            print!(rt; ", refused {}", why.number())?;
            Ok(None)
        }
        Ok(found) => {
            message(rt, d, found.message)?;
            Ok(Some(found.next))
        }
    }
}

fn messages(rt: &impl Print, d: &[u8], count: usize) -> io::Result<()> {
    let mut at = 0;
    for _ in 0..count {
        at = message_at(rt, d, at)?.unwrap_or(at);
    }
    Ok(())
}

// How many messages a packet has, and each of them.
pub fn up(rt: &impl Print, d: &[u8]) -> io::Result<()> {
    match up::read_up(d) {
        Err(why) => page::refused(rt, why),
        Ok(count) => {
            print!(rt; "\n= messages {count}")?;
            messages(rt, d, count)
        }
    }
}

// The message at a place of a packet, and where the next one stands.
pub fn find(rt: &impl Print, d: &[u8], place: usize) -> io::Result<()> {
    print!(rt; "\n= at {place}")?;
    match message_at(rt, d, place)? {
        Some(next) => print!(rt; ", next at {next}"),
        None => Ok(()),
    }
}
