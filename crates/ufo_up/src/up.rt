// UFO, client to server: a packet of one or more messages, and each message, read.
ghost use Rattle.std.specs.Prelude.{ℕ, ◌≡◌, ◌+◌, ◌^◌, ◌<◌, ◌≤◌, true, length, [], ◌∷◌};
ghost use Rattle.wire.specs.Checks.{taken, checked, ◌else◌, ◌told_by◌};
ghost use Rattle.wire.specs.declared.refusal.Refusal.TheVariants.{Form};
ghost use Rattle.text.specs.Text.{text_then_spaces};
ghost use Rattle.wire.specs.Datagram.{limit};
ghost use Rattle.blocks.specs.Blocks.{upstream, messages_of, count_of, end_at};
ghost use Rattle.ufo_up.specs.Up.{checks_alone, read_l, read_t, read_u, read_each, read_up, message_at, message_in};
ghost use Rattle.ufo_up.specs.Up.{read_message, up_of, placed_of, is_taken};

use wire::datagram::LIMIT;
use wire::fields;
use wire::kinds::{Name, Password, Sequence, User};
use wire::refusal::Refusal;

// What one message says. The data of Unsequenced stands in the packet.
#[derive(Clone, Copy)]
pub enum Up {
    Login {
        user: User,
        password: Password,
        session: Name,
    },
    Request {
        first: Sequence,
        count: u16,
    },
    Unsequenced {
        start: usize,
        length: usize,
    },
    Heartbeat,
    Logout,
}

// A message in its packet, and the place where the next one stands.
#[derive(Clone, Copy)]
pub struct Placed {
    pub message: Up,
    pub next: usize,
}

// A text field is padded on the right, and may be blank.
fn check_text(t: &[u8]) -> Result<(), Refusal>
    ensures { result ≡ checked ((text_then_spaces t.now else Form) ∷ []) (taken tt) }
{
    if !text::is_text_then_spaces(t) {
        return Err(Refusal::Form);
    }
    Ok(())
}

// Here m is a message's own bytes, wherever they stand.
#[tactic(auto, unfolding(crate::specs::Up::read_l))]
fn read_l(m: &[u8]) -> Result<Up, Refusal>
    ensures { (next : ℕ) → result ≡ read_l m.now told_by up_of next }
{
    if m.len() != 27 {
        return Err(Refusal::Framing);
    }
    let user = &m[1..7];
    check_text(user)?;
    let password = &m[7..17];
    check_text(password)?;
    let session = &m[17..27];
    check_text(session)?;
    if text::is_blank(user) {
        return Err(Refusal::Absent);
    }
    Ok(Up::Login {
        user: names::get_user(user, 0),
        password: Password(names::get_name(password, 0)),
        session: names::get_name(session, 0),
    })
}

#[tactic(auto, unfolding(crate::specs::Up::read_t))]
fn read_t(m: &[u8]) -> Result<Up, Refusal>
    ensures { (next : ℕ) → result ≡ read_t m.now told_by up_of next }
{
    if m.len() != 7 {
        return Err(Refusal::Framing);
    }
    let first = fields::get4(m, 1);
    if first == 0 {
        return Err(Refusal::Absent);
    }
    let count = fields::get2(m, 5);
    if count == 0 {
        return Err(Refusal::Absent);
    }
    Ok(Up::Request {
        first: Sequence(first as u64),
        count,
    })
}

// The bytes stand at a place of a packet.
#[tactic(auto, unfolding(crate::specs::Up::read_u))]
fn read_u(m: &[u8], place: usize) -> Result<Up, Refusal>
    requires { (0 < length m.now) × (place + length m.now < 2 ^ 64) }
    ensures { result ≡ read_u m.now told_by up_of (place + length m.now) }
{
    if LIMIT - 2 < m.len() {
        return Err(Refusal::Framing);
    }
    Ok(Up::Unsequenced {
        start: place + 1,
        length: m.len() - 1,
    })
}

// What the type byte says, if it stands alone.
fn alone(m: &[u8], said: Up) -> Result<Up, Refusal>
    ensures { result ≡ checked (checks_alone m.now) (taken said) }
{
    if m.len() != 1 {
        return Err(Refusal::Framing);
    }
    Ok(said)
}

#[tactic(auto, unfolding(crate::specs::Up::read_message, crate::specs::Up::read_alone))]
fn read_own(m: &[u8], place: usize) -> Result<Up, Refusal>
    requires { (0 < length m.now) × (place + length m.now < 2 ^ 64) }
    ensures { result ≡ read_message m.now told_by up_of (place + length m.now) }
{
    match m[0] {
        b'L' => read_l(m),
        b'T' => read_t(m),
        b'U' => read_u(m, place),
        b'R' => alone(m, Up::Heartbeat),
        b'O' => alone(m, Up::Logout),
        _ => Err(Refusal::UnknownType),
    }
}

// The message whose block stands at a place of a packet, whatever stands elsewhere in it.
fn message_at(d: &[u8], place: usize) -> Result<Placed, Refusal>
    ensures { result ≡ message_at d.now place told_by placed_of (end_at d.now place) }
{
    let block = blocks::next(d, place)?;
    if block.length == 0 {
        return Err(Refusal::Framing);
    }
    let message = read_own(&d[block.start..block.next], block.start)?;
    Ok(Placed {
        message,
        next: block.next,
    })
}

// The messages of a packet whose blocks are whole, and are so many.
fn read_each(d: &[u8], count: usize) -> Result<usize, Refusal>
    requires { (count_of (upstream d.now) ≡ taken count) × (length d.now ≤ limit) }
    ensures { result ≡ read_each (messages_of (upstream d.now)) told_by length }
{
    let mut at = 0;
    for _ in 0..count {
        at = message_at(d, at)?.next;
    }
    Ok(count)
}

// How many messages a packet has.
#[tactic(auto, unfolding(crate::specs::Up::read_up))]
pub fn read_up(d: &[u8]) -> Result<usize, Refusal>
    ensures { result ≡ read_up d.now told_by length }
{
    if d.len() == 0 {
        return Err(Refusal::Empty);
    }
    if LIMIT < d.len() {
        return Err(Refusal::Overlong);
    }
    let count = blocks::count_upstream(d)?;
    read_each(d, count)
}

// The message at a place of a packet that is taken. A block stands there only if the blocks before it end there.
fn find_message(d: &[u8], place: usize) -> Result<Placed, Refusal>
    requires { is_taken (read_up d.now) ≡ true }
    ensures { result ≡ message_in d.now place told_by placed_of (end_at d.now place) }
{
    let mut at = 0;
    // From block to block: only their own lengths tell how many there are before the place.
    while at < place {
        at = blocks::next(d, at)?.next;
    }
    if place < at {
        return Err(Refusal::Framing);
    }
    message_at(d, place)
}

// Each message costs a pass over the whole packet: none is handed out of a packet that is refused.
pub fn read_message(d: &[u8], place: usize) -> Result<Placed, Refusal>
    ensures { result ≡ message_in d.now place told_by placed_of (end_at d.now place) }
{
    read_up(d)?;
    find_message(d, place)
}
