// MEMX-TCP packets, as their reader takes them.
use book_page::page;
use memx_tcp::packet::Fields;
use memx_tcp::reading;
use memx_tcp::types::Kind;
use std::io;

// A packet's name, and the fields that its type has: of one that a server sends, or else a client.
fn server(rt: &impl Print, kind: Kind, p: Fields) -> io::Result<()> {
    let count = p.count;
    let number = p.number.0;
    match kind {
        Kind::Heartbeat => print!(rt; "\n= heartbeat"),
        Kind::LoginAccepted => page::letter(rt, "\n= login accepted, mode ", p.letter),
        Kind::LoginRejected => page::letter(rt, "\n= login rejected, reason ", p.letter),
        Kind::StartOfSession => print!(rt; "\n= start of session, session {}", p.session.0),
        Kind::EndOfSession => print!(rt; "\n= end of session"),
        Kind::ReplayBegin => print!(rt; "\n= replay begin, next {number}, pending {count}"),
        Kind::ReplayRejected => page::letter(rt, "\n= replay rejected, reason ", p.letter),
        Kind::ReplayComplete => print!(rt; "\n= replay complete, count {count}"),
        Kind::StreamBegin => print!(rt; "\n= stream begin, next {number}, top {}", p.top.0),
        Kind::StreamRejected => page::letter(rt, "\n= stream rejected, reason ", p.letter),
        Kind::StreamComplete => print!(rt; "\n= stream complete, total {number}"),
        Kind::Sequenced => print!(rt; "\n= sequenced"),
        _ => client(rt, kind, p),
    }
}

// A packet that only a client sends.
fn client(rt: &impl Print, kind: Kind, p: Fields) -> io::Result<()> {
    let session = p.session.0;
    let number = p.number.0;
    match kind {
        Kind::Login => {
            page::letter(rt, "\n= login, token type ", p.letter)?;
            print!(rt; ", token")
        }
        Kind::Replay => {
            print!(rt;
                "\n= replay, session {session}, next {number}, count {}",
                p.count
            )
        }
        Kind::ReplayAll => print!(rt; "\n= replay all, session {session}"),
        Kind::Stream => print!(rt; "\n= stream, session {session}, next {number}"),
        _ => print!(rt; "\n= unsequenced"),
    }
}

// A token or payload begins behind the header; where the type has neither, its place is 0.
pub fn tcp(rt: &impl Print, d: &[u8]) -> io::Result<()> {
    match reading::read(d) {
        Err(why) => page::refused(rt, why),
        Ok(packet) => {
            if let Ok(kind) = Kind::try_from(packet.fields.kind) {
                server(rt, kind, packet.fields)?;
            }
            if packet.start == 0 {
                return Ok(());
            }
            page::part(rt, "", d, packet.start, packet.length)
        }
    }
}
