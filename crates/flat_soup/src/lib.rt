// SoupTCP laid flat: a packet read, and one written from its fields.
#![tactic(auto)]

ghost use Rattle.std.specs.Prelude.{◌≡◌, length};
ghost use Rattle.wire.specs.Reply.{Settled};
ghost use Rattle.soup.specs.Packet.{login};
ghost use Rattle.soup_write.specs.Writing.{reply};
ghost use Rattle.flat.specs.Wrote.{FlatSettled};
ghost use Rattle.flat_soup.specs.Reading.{flat_soup, soup_read};
ghost use Rattle.flat_soup.specs.Writing.{soup_bare, soup_reply};

use flat::name::{name_of, user_of};
use flat::wrote;
use flat::wrote::Wrote;
use flat_packet::fitting::unfit;
use flat_packet::{Packet, Read};
use soup::line;
use soup::reading::Reading;
use wire::kinds::{Password, Sequence};
use wire::refusal::Refusal;

fn flat_of(said: Reading) -> Read
    ensures { result ≡ flat_soup said }
{
    match said {
        Reading::Debug { start, length } => flat_packet::payload(
            b'+',
            start as u64,
            length as u64,
            0,
        ),
        Reading::Accept { session, number } => {
            flat_packet::named(names::name_bytes(session), number.0)
        }
        Reading::Reject { reason } => flat_packet::rejected(reason),
        Reading::Sequenced { start, length } => {
            flat_packet::payload(b'S', start as u64, length as u64, 0)
        }
        Reading::ServerHeartbeat => flat_packet::bare(b'H', 0),
        Reading::EndOfSession => flat_packet::bare(b'Z', 0),
        Reading::Login {
            user,
            password,
            session,
            number,
        } => flat_packet::logged_in(
            names::user_bytes(user),
            names::name_bytes(password.0),
            names::name_bytes(session),
            number.0,
            0,
        ),
        Reading::Unsequenced { start, length } => {
            flat_packet::payload(b'U', start as u64, length as u64, 0)
        }
        Reading::ClientHeartbeat => flat_packet::bare(b'R', 0),
        Reading::Logout => flat_packet::bare(b'O', 0),
    }
}

pub fn read(packet: &[u8]) -> Read
    ensures { result ≡ soup_read packet.now }
{
    match soup::reading::read(packet) {
        Ok(said) => flat_of(said),
        Err(why) => flat_packet::no_packet(why),
    }
}

// The types that are their byte alone.
fn bare_written(kind: u8, body: &[u8], out: &mut [u8]) -> Result<usize, Refusal>
    ensures { Settled (soup_bare kind body.now (length out.old)) out.old result out.new }
{
    match kind {
        b'H' => {
            if body.len() != 0 {
                return unfit(line::LONGEST, 2, body, Refusal::Framing);
            }
            soup_write::write_server_heartbeat(out)
        }
        b'Z' => {
            if body.len() != 0 {
                return unfit(line::LONGEST, 2, body, Refusal::Framing);
            }
            soup_write::write_end_of_session(out)
        }
        b'R' => {
            if body.len() != 0 {
                return unfit(line::LONGEST, 2, body, Refusal::Framing);
            }
            soup_write::write_client_heartbeat(out)
        }
        b'O' => {
            if body.len() != 0 {
                return unfit(line::LONGEST, 2, body, Refusal::Framing);
            }
            soup_write::write_logout(out)
        }
        _ => unfit(line::LONGEST, 2, body, Refusal::UnknownType),
    }
}

fn login_written(fields: Packet, out: &mut [u8]) -> Result<usize, Refusal>
    ensures { Settled (reply (login fields.user fields.password fields.name fields.number) (length out.old))
        out.old result out.new }
{
    let number = fields.number;
    let user_text = fields.user;
    let password_text = fields.password;
    let name_text = fields.name;
    let user = user_of(&user_text);
    let password = Password(name_of(&password_text));
    let name = name_of(&name_text);
    soup_write::write_login(user, password, name, Sequence(number), out)
}

fn written(fields: Packet, body: &[u8], out: &mut [u8]) -> Result<usize, Refusal>
    ensures { Settled (soup_reply fields body.now (length out.old)) out.old result out.new }
{
    let kind = fields.kind;
    let number = fields.number;
    match kind {
        b'+' => soup_write::write_debug(body, out),
        b'S' => soup_write::write_sequenced(body, out),
        b'U' => soup_write::write_unsequenced(body, out),
        b'A' => {
            if body.len() != 0 {
                return unfit(line::LONGEST, 32, body, Refusal::Framing);
            }
            let text = fields.name;
            let name = name_of(&text);
            soup_write::write_accept(name, Sequence(number), out)
        }
        b'J' => {
            if body.len() != 0 {
                return unfit(line::LONGEST, 3, body, Refusal::Framing);
            }
            let reason = fields.reason;
            soup_write::write_reject(reason, out)
        }
        b'L' => {
            if body.len() != 0 {
                return unfit(line::LONGEST, 48, body, Refusal::Framing);
            }
            login_written(fields, out)
        }
        _ => bare_written(kind, body, out),
    }
}

pub fn write(fields: Packet, body: &[u8], out: &mut [u8]) -> Wrote
    ensures { FlatSettled (soup_reply fields body.now (length out.old)) out.old result
        out.new }
{
    wrote::wrote_of(written(fields, body, out))
}
