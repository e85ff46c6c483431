// UFO, client to server: a packet composed message by message in lent output.
#![tactic(auto)]

ghost use Rattle.std.specs.Prelude.{◌≡◌, length};
ghost use Rattle.wire.specs.Checks.{◌told_by◌};
ghost use Rattle.wire.specs.Reply.{Settled};
ghost use Rattle.blocks.specs.Blocks.{frame};
ghost use Rattle.ufo_up.specs.Up.{write_message};
ghost use Rattle.ufo_up_write.specs.WriteUp.{reply};
ghost use Rattle.ufo_compose.specs.Compose.{message_of, so_far, add_reply};

use ufo_up::up;
use wire::datagram::LIMIT;
use wire::kinds::{Name, Password, Sequence, User};
use wire::refusal::Refusal;

// A message to be added. What an unsequenced one carries is lent beside it.
#[derive(Clone, Copy)]
pub enum Message {
    Login {
        user: User,
        password: Password,
        session: Name,
    },
    Request {
        first: Sequence,
        count: u16,
    },
    Unsequenced,
    Heartbeat,
    Logout,
}

// How many bytes a message's block has.
fn size_of(message: Message, data: &[u8]) -> usize
    ensures { result ≡ length (frame (write_message (message_of message «data».now))) }
{
    match message {
        Message::Login { .. } => 29,
        Message::Request { .. } => 9,
        Message::Unsequenced => 3 + data.len(),
        Message::Heartbeat | Message::Logout => 3,
    }
}

// The message's block, from the output's start.
fn write_message(message: Message, data: &[u8], out: &mut [u8]) -> Result<usize, Refusal>
    ensures { Settled (reply (message_of message «data».now) (length out.old))
        out.old result out.new }
{
    match message {
        Message::Login {
            user,
            password,
            session,
        } => ufo_up_write::write_login(user, password, session, out),
        Message::Request { first, count } => ufo_up_write::write_request(first, count, out),
        Message::Unsequenced => ufo_up_write::write_unsequenced(data, out),
        Message::Heartbeat => ufo_up_write::write_heartbeat(out),
        Message::Logout => ufo_up_write::write_logout(out),
    }
}

// How many messages the packet so far has, which may be nothing yet.
pub fn read_so_far(s: &[u8]) -> Result<usize, Refusal>
    ensures { result ≡ so_far s.now told_by length }
{
    if s.len() == 0 {
        return Ok(0);
    }
    up::read_up(s)
}

// The output's first `used` bytes are a packet so far, or nothing; the message is written behind them, and the answer counts
// the whole. `data` is what an unsequenced message carries: for any other it is not looked at.
pub fn add_message(
    message: Message,
    data: &[u8],
    out: &mut [u8],
    used: usize,
) -> Result<usize, Refusal>
    ensures { Settled (add_reply (message_of message «data».now) out.old used)
        out.old result out.new }
{
    if out.len() < used {
        return Err(Refusal::Framing);
    }
    read_so_far(&out[..used])?;
    let room = LIMIT - used;
    if room < size_of(message, data) {
        return Err(Refusal::Overlong);
    }
    let added = write_message(message, data, &mut out[used..])?;
    Ok(used + added)
}
