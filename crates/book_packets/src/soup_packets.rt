// SoupTCP packets, as their reader takes them.
use book_page::page;
use soup::reading;
use soup::reading::Reading;
use std::io;
use wire::kinds::{Name, Sequence};

// Session 8841, padded on the left, goes without saying.
const USUAL: Name = Name(0x2020, 0x2020202038383431);

fn accepted(rt: &impl Print, session: Name, number: Sequence) -> io::Result<()> {
    print!(rt; "\n= accepted, next {}", number.0)?;
    if session != USUAL {
        page::name(rt, ", session", session)?;
    }
    Ok(())
}

// What a packet says whose bytes are d.
pub fn tell(rt: &impl Print, said: Reading, d: &[u8]) -> io::Result<()> {
    match said {
        Reading::Debug { start, length } => page::part(rt, "\n= debug", d, start, length),
        Reading::Accept { session, number } => accepted(rt, session, number),
        Reading::Reject { reason } => page::rejected(rt, reason),
        Reading::Sequenced { start, length } => page::part(rt, "\n= sequenced", d, start, length),
        Reading::ServerHeartbeat => print!(rt; "\n= server heartbeat"),
        Reading::EndOfSession => print!(rt; "\n= end of session"),
        Reading::Login {
            user,
            password,
            session,
            number,
        } => {
            print!(rt; "\n= login, number {}", number.0)?;
            page::login(rt, user, password, session)
        }
        Reading::Unsequenced { start, length } => {
            page::part(rt, "\n= unsequenced", d, start, length)
        }
        Reading::ClientHeartbeat => print!(rt; "\n= client heartbeat"),
        Reading::Logout => print!(rt; "\n= logout"),
    }
}

pub fn soup(rt: &impl Print, d: &[u8]) -> io::Result<()> {
    match reading::read(d) {
        Err(why) => page::refused(rt, why),
        Ok(said) => tell(rt, said, d),
    }
}
