// SoupTCP: packets laid into lent output. What the reader would refuse is refused under the same number; then the room is looked at.
#![tactic(auto)]

ghost use Rattle.std.specs.Prelude.{◌≡◌, [], true, length};
ghost use Rattle.names.specs.Names.{name_bytes, user_bytes};
ghost use Rattle.wire.specs.Reply.{Settled};
ghost use Rattle.soup.specs.Packet.{debug, accept, reject, sequenced, server_heartbeat, end_of_session, login, unsequenced};
ghost use Rattle.soup.specs.Packet.{client_heartbeat};
ghost use Rattle.soup.specs.Packet.{logout, line, carries};
ghost use Rattle.soup_write.specs.Writing.{sent, reply};

use soup::{line, reading};
use wire::kinds::{Name, Password, Sequence, User};
use wire::output;
use wire::refusal::Refusal;

// A packet that is laid out already: the reader is asked.
fn write_packet(packet: &[u8], out: &mut [u8]) -> Result<usize, Refusal>
    ensures { Settled (sent packet.now (length out.old)) out.old result out.new }
{
    reading::read(packet)?;
    if out.len() < packet.len() {
        return Err(Refusal::Room);
    }
    output::copy(out, 0, packet, 0, packet.len());
    Ok(packet.len())
}

// A packet that holds nothing.
fn write_bare(kind: u8, out: &mut [u8]) -> Result<usize, Refusal>
    ensures { Settled (sent (line kind []) (length out.old)) out.old result out.new }
{
    let packet = [kind, b'\n'];
    write_packet(&packet, out)
}

// A payload, which is looked at where it lies and copied once.
fn write_payload(kind: u8, payload: &[u8], out: &mut [u8]) -> Result<usize, Refusal>
    requires { carries kind ≡ true }
    ensures { Settled (sent (line kind payload.now) (length out.old)) out.old result
        out.new }
{
    let length = payload.len();
    if line::LONGEST_PAYLOAD < length {
        return Err(Refusal::Overlong);
    }
    if !line::is_unbroken(payload) {
        return Err(Refusal::Linefeed);
    }
    if out.len() < length + 2 {
        return Err(Refusal::Room);
    }
    out[0] = kind;
    output::copy(out, 1, payload, 0, length);
    out[length + 1] = b'\n';
    Ok(length + 2)
}

pub fn write_debug(text: &[u8], out: &mut [u8]) -> Result<usize, Refusal>
    ensures { Settled (reply (debug text.now) (length out.old)) out.old result out.new }
{
    write_payload(b'+', text, out)
}

pub fn write_accept(session: Name, number: Sequence, out: &mut [u8]) -> Result<usize, Refusal>
    ensures { Settled (reply (accept (name_bytes session) number.0) (length out.old)) out.old result
        out.new }
{
    let digits = decimal::characters(number.0);
    let mut packet = [0u8; 32];
    packet[0] = b'A';
    names::put_name(&mut packet, 1, session);
    output::copy(&mut packet, 11, &digits, 0, 20);
    packet[31] = b'\n';
    write_packet(&packet, out)
}

pub fn write_reject(reason: u8, out: &mut [u8]) -> Result<usize, Refusal>
    ensures { Settled (reply (reject reason) (length out.old)) out.old result out.new }
{
    let packet = [b'J', reason, b'\n'];
    write_packet(&packet, out)
}

pub fn write_sequenced(message: &[u8], out: &mut [u8]) -> Result<usize, Refusal>
    ensures { Settled (reply (sequenced message.now) (length out.old)) out.old result
        out.new }
{
    write_payload(b'S', message, out)
}

pub fn write_server_heartbeat(out: &mut [u8]) -> Result<usize, Refusal>
    ensures { Settled (reply server_heartbeat (length out.old)) out.old result out.new }
{
    write_bare(b'H', out)
}

pub fn write_end_of_session(out: &mut [u8]) -> Result<usize, Refusal>
    ensures { Settled (reply end_of_session (length out.old)) out.old result out.new }
{
    write_bare(b'Z', out)
}

pub fn write_login(
    user: User,
    password: Password,
    session: Name,
    number: Sequence,
    out: &mut [u8],
) -> Result<usize, Refusal>
    ensures { Settled (reply (login (user_bytes user) (name_bytes password.0) (name_bytes session) number.0)
        (length out.old)) out.old result out.new }
{
    let digits = decimal::characters(number.0);
    let mut packet = [0u8; 48];
    packet[0] = b'L';
    names::put_user(&mut packet, 1, user);
    names::put_name(&mut packet, 7, password.0);
    names::put_name(&mut packet, 17, session);
    output::copy(&mut packet, 27, &digits, 0, 20);
    packet[47] = b'\n';
    write_packet(&packet, out)
}

pub fn write_unsequenced(message: &[u8], out: &mut [u8]) -> Result<usize, Refusal>
    ensures { Settled (reply (unsequenced message.now) (length out.old)) out.old result
        out.new }
{
    write_payload(b'U', message, out)
}

pub fn write_client_heartbeat(out: &mut [u8]) -> Result<usize, Refusal>
    ensures { Settled (reply client_heartbeat (length out.old)) out.old result out.new }
{
    write_bare(b'R', out)
}

pub fn write_logout(out: &mut [u8]) -> Result<usize, Refusal>
    ensures { Settled (reply logout (length out.old)) out.old result out.new }
{
    write_bare(b'O', out)
}
