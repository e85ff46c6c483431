// UFO, client to server, laid flat: a packet and its messages read, and a message written from its fields.
#![tactic(auto)]

ghost use Rattle.std.specs.Prelude.{◌≡◌, length};
ghost use Rattle.wire.specs.Reply.{Settled};
ghost use Rattle.ufo_up.specs.Up.{login};
ghost use Rattle.ufo_up_write.specs.WriteUp.{reply};
ghost use Rattle.flat.specs.Wrote.{FlatSettled};
ghost use Rattle.flat_ufo_up.specs.Reading.{flat_message, up_read, message_read};
ghost use Rattle.flat_ufo_up.specs.Writing.{message_reply};

use flat::name::{name_of, user_of};
use flat::wrote;
use flat::wrote::Wrote;
use flat_packet::fitting::unfit;
use flat_packet::{Packet, Read};
use ufo_up::up::Up;
use wire::datagram::LIMIT;
use wire::kinds::{Password, Sequence};
use wire::refusal::Refusal;

// A packet of at most 1,472 bytes has no more messages than that.
pub fn read(packet: &[u8]) -> Read
    ensures { result ≡ up_read packet.now }
{
    match ufo_up::up::read_up(packet) {
        Err(why) => flat_packet::no_packet(why),
        Ok(count) => flat_packet::requested(0, 0, count as u16, 0),
    }
}

// The next message stands at `next`.
fn flat_of(said: Up, next: u64) -> Read
    ensures { result ≡ flat_message said next }
{
    match said {
        Up::Login {
            user,
            password,
            session,
        } => flat_packet::logged_in(
            names::user_bytes(user),
            names::name_bytes(password.0),
            names::name_bytes(session),
            0,
            next,
        ),
        Up::Request { first, count } => flat_packet::requested(b'T', first.0, count, next),
        Up::Unsequenced { start, length } => {
            flat_packet::payload(b'U', start as u64, length as u64, next)
        }
        Up::Heartbeat => flat_packet::bare(b'R', next),
        Up::Logout => flat_packet::bare(b'O', next),
    }
}

pub fn read_message(packet: &[u8], place: u64) -> Read
    ensures { result ≡ message_read packet.now place }
{
    match ufo_up::up::read_message(packet, place as usize) {
        Err(why) => flat_packet::no_packet(why),
        Ok(placed) => flat_of(placed.message, placed.next as u64),
    }
}

fn login_written(fields: Packet, out: &mut [u8]) -> Result<usize, Refusal>
    ensures { Settled (reply (login fields.user fields.password fields.name) (length out.old))
        out.old result out.new }
{
    let user = user_of(&fields.user);
    let password = Password(name_of(&fields.password));
    let name = name_of(&fields.name);
    ufo_up_write::write_login(user, password, name, out)
}

fn written(fields: Packet, body: &[u8], out: &mut [u8]) -> Result<usize, Refusal>
    ensures { Settled (message_reply fields body.now (length out.old))
        out.old result out.new }
{
    match fields.kind {
        b'L' => {
            if body.len() != 0 {
                return unfit(LIMIT, 29, body, Refusal::Framing);
            }
            login_written(fields, out)
        }
        b'T' => {
            if body.len() != 0 {
                return unfit(LIMIT, 9, body, Refusal::Framing);
            }
            ufo_up_write::write_request(Sequence(fields.number), fields.count, out)
        }
        b'U' => ufo_up_write::write_unsequenced(body, out),
        b'R' => {
            if body.len() != 0 {
                return unfit(LIMIT, 3, body, Refusal::Framing);
            }
            ufo_up_write::write_heartbeat(out)
        }
        b'O' => {
            if body.len() != 0 {
                return unfit(LIMIT, 3, body, Refusal::Framing);
            }
            ufo_up_write::write_logout(out)
        }
        _ => unfit(LIMIT, 3, body, Refusal::UnknownType),
    }
}

pub fn write_message(fields: Packet, body: &[u8], out: &mut [u8]) -> Wrote
    ensures { FlatSettled (message_reply fields body.now (length out.old))
        out.old result out.new }
{
    wrote::wrote_of(written(fields, body, out))
}
