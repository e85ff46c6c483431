// Packets written. A line gives their fields in the order of the wire, each number in eight bytes.
#![tactic(auto)]

ghost use Rattle.std.specs.Prelude.{◌+◌, ◌≤◌};

use book_lines::line::Line;
use book_page::page;
use memx_tcp::packet::Fields;
use memx_tcp::types::Kind;
use std::io;
use wire::fields;
use wire::kinds::{Password, Sequence, SessionId};
use wire::refusal::Refusal;

// The room in which a line's fields lie. What a shorter line lacks is what stands there.
type Room = [u8; page::ROOM];

fn number(d: &Room, place: usize) -> Sequence
    requires { place + 8 ≤ 65600 }
{
    Sequence(fields::get8(d, place))
}

// What stands from a place on, up to the end of what the line spells.
fn rest<'a>(line: &Line<'a>, place: usize) -> &'a [u8] {
    line.bytes.get(place..).unwrap_or(&[])
}

fn down(line: &Line<'_>, out: &mut [u8]) -> Result<usize, Refusal> {
    let d = line.room;
    match d[0] {
        b'A' => ufo_write::write_accept(names::get_name(d, 1), number(d, 11), out),
        b'J' => ufo_write::write_reject(d[1], out),
        b'S' => {
            let count = fields::get2(d, 9);
            ufo_write::write_messages(number(d, 1), count, rest(line, 11), out)
        }
        _ => ufo_write::write_end(number(d, 1), out),
    }
}

fn up(line: &Line<'_>, out: &mut [u8]) -> Result<usize, Refusal> {
    let d = line.room;
    match d[0] {
        b'L' => ufo_up_write::write_login(
            names::get_user(d, 1),
            Password(names::get_name(d, 7)),
            names::get_name(d, 17),
            out,
        ),
        b'T' => ufo_up_write::write_request(number(d, 1), fields::get2(d, 9), out),
        b'U' => ufo_up_write::write_unsequenced(rest(line, 1), out),
        b'R' => ufo_up_write::write_heartbeat(out),
        _ => ufo_up_write::write_logout(out),
    }
}

// A MEMX packet with extra bytes. The count stands at a place of the line, and the blocks behind it.
fn broadcast(line: &Line<'_>, extra: &[u8], place: usize, out: &mut [u8]) -> Result<usize, Refusal>
    requires { place + 2 ≤ 65600 }
{
    let d = line.room;
    let session = SessionId(fields::get8(d, 1));
    let number = number(d, 9);
    match d[0] {
        0 => memx_write::write_heartbeat(session, number, extra, out),
        1 => memx_write::write_shutdown(session, number, extra, out),
        _ => {
            let count = fields::get2(d, place);
            let blocks = rest(line, place + 2);
            memx_write::write_messages(session, number, count, extra, blocks, out)
        }
    }
}

// Behind the number stands how many extra bytes there are, in two bytes, and then those.
fn headed(line: &Line<'_>, out: &mut [u8]) -> Result<usize, Refusal> {
    let d = line.room;
    let place = 19 + usize::from(fields::get2(d, 17));
    broadcast(line, &d[19..place], place, out)
}

fn soup(line: &Line<'_>, out: &mut [u8]) -> Result<usize, Refusal> {
    let d = line.room;
    match d[0] {
        b'+' => soup_write::write_debug(rest(line, 1), out),
        b'A' => soup_write::write_accept(names::get_name(d, 1), number(d, 11), out),
        b'J' => soup_write::write_reject(d[1], out),
        b'S' => soup_write::write_sequenced(rest(line, 1), out),
        b'H' => soup_write::write_server_heartbeat(out),
        b'Z' => soup_write::write_end_of_session(out),
        b'L' => soup_write::write_login(
            names::get_user(d, 1),
            Password(names::get_name(d, 7)),
            names::get_name(d, 17),
            number(d, 27),
            out,
        ),
        b'U' => soup_write::write_unsequenced(rest(line, 1), out),
        b'R' => soup_write::write_client_heartbeat(out),
        _ => soup_write::write_logout(out),
    }
}

// Fields that the type lacks have what stands in their place; the writer looks at none of them.
fn tcp_fields(d: &Room) -> Fields {
    let kind = Kind::try_from(d[0]);
    let first = fields::get8(d, 1);
    let second = fields::get8(d, 9);
    let number = match kind {
        Ok(Kind::ReplayBegin | Kind::StreamBegin | Kind::StreamComplete) => first,
        _ => second,
    };
    let count = match kind {
        Ok(Kind::ReplayComplete) => fields::get4(d, 1),
        Ok(Kind::ReplayBegin) => fields::get4(d, 9),
        _ => fields::get4(d, 17),
    };
    Fields {
        kind: d[0],
        letter: d[1],
        count,
        session: SessionId(first),
        number: Sequence(number),
        top: Sequence(second),
    }
}

// What stands behind the fields is the body.
fn tcp(line: &Line<'_>, out: &mut [u8]) -> Result<usize, Refusal> {
    let d = line.room;
    let body = match Kind::try_from(d[0]) {
        Ok(
            Kind::LoginAccepted
            | Kind::LoginRejected
            | Kind::ReplayRejected
            | Kind::StreamRejected
            | Kind::Login,
        ) => 2,
        Ok(Kind::ReplayComplete) => 5,
        Ok(Kind::StartOfSession | Kind::StreamComplete | Kind::ReplayAll) => 9,
        Ok(Kind::ReplayBegin) => 13,
        Ok(Kind::StreamBegin | Kind::Stream) => 17,
        Ok(Kind::Replay) => 21,
        _ => 1,
    };
    memx_tcp::writing::write(tcp_fields(d), rest(line, body), out)
}

// The packet that a line gives, whose second word says of which protocol it is: `down`, `up`, `memx`, `headed`, `tcp` or `soup`.
fn packet(protocol: u8, line: &Line<'_>, out: &mut [u8]) -> Result<usize, Refusal> {
    match protocol {
        b'd' => down(line, out),
        b'u' => up(line, out),
        b'm' => broadcast(line, b"", 17, out),
        b'h' => headed(line, out),
        b't' => tcp(line, out),
        _ => soup(line, out),
    }
}

pub fn put(rt: &impl Print, line: &Line<'_>) -> io::Result<()> {
    let mut out = [page::UNTOUCHED; page::ROOM];
    let room = out.get_mut(..line.mark.unwrap_or(page::ROOM));
    if let (Some(protocol), Some(lent)) = (line.letter(4), room) {
        let said = packet(protocol, line, lent);
        page::wrote(rt, "\n= written, bytes ", said, &out)?;
    }
    Ok(())
}
