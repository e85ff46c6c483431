// UFO, client to server, laid flat: a message written from its fields behind the packet so far.
#![tactic(auto)]

ghost use Rattle.std.specs.Prelude.{◌+◌, length};
ghost use Rattle.wire.specs.Reply.{Settled};
ghost use Rattle.ufo_compose.specs.Compose.{message_of, add_reply};
ghost use Rattle.flat.specs.Wrote.{FlatSettled};
ghost use Rattle.flat_compose.specs.Adding.{unfit_behind, alone_behind, IsLogin, add_flat};

use flat::name::{name_of, user_of};
use flat::wrote;
use flat::wrote::Wrote;
use flat_packet::Packet;
use flat_packet::fitting::unfit;
use ufo_compose::Message;
use wire::datagram::LIMIT;
use wire::kinds::{Password, Sequence};
use wire::refusal::Refusal;

// A message and a body that don't go together: what is there is read first. The block has `size` bytes without the body.
fn unfit_behind(
    out: &mut [u8],
    used: usize,
    size: u16,
    body: &[u8],
    why: Refusal,
) -> Result<usize, Refusal>
    ensures { Settled (unfit_behind out.old used (size + length body.now) why)
        out.old result out.new }
{
    if out.len() < used {
        return Err(Refusal::Framing);
    }
    ufo_compose::read_so_far(&out[..used])?;
    unfit(LIMIT, used + size as usize, body, why)
}

// A message that has no body.
fn alone(
    message: Message,
    size: u16,
    body: &[u8],
    out: &mut [u8],
    used: usize,
) -> Result<usize, Refusal>
    ensures { Settled (alone_behind out.old used size body.now
        (add_reply (message_of message body.now) out.old used)) out.old result out.new }
{
    if body.len() != 0 {
        return unfit_behind(out, used, size, body, Refusal::Framing);
    }
    ufo_compose::add_message(message, body, out, used)
}

fn login_of(fields: Packet) -> Message
    ensures { IsLogin fields result }
{
    Message::Login {
        user: user_of(&fields.user),
        password: Password(name_of(&fields.password)),
        session: name_of(&fields.name),
    }
}

fn added(fields: Packet, body: &[u8], out: &mut [u8], used: usize) -> Result<usize, Refusal>
    ensures { Settled (add_flat fields body.now out.old used) out.old result out.new }
{
    let first = Sequence(fields.number);
    let count = fields.count;
    match fields.kind {
        b'L' => alone(login_of(fields), 29, body, out, used),
        b'T' => alone(Message::Request { first, count }, 9, body, out, used),
        b'U' => ufo_compose::add_message(Message::Unsequenced, body, out, used),
        b'R' => alone(Message::Heartbeat, 3, body, out, used),
        b'O' => alone(Message::Logout, 3, body, out, used),
        _ => unfit_behind(out, used, 3, body, Refusal::UnknownType),
    }
}

pub fn add(fields: Packet, body: &[u8], out: &mut [u8], used: u64) -> Wrote
    ensures { FlatSettled (add_flat fields body.now out.old used) out.old result out.new }
{
    wrote::wrote_of(added(fields, body, out, used as usize))
}
