// UFO, server to client: what a datagram says.
ghost use Rattle.std.specs.Prelude.{◌≡◌};
ghost use Rattle.wire.specs.Checks.{◌told_by◌};
ghost use Rattle.ufo.specs.Down.{read, read_a, read_j, read_s, read_e, down_of};

use wire::datagram::LIMIT;
use wire::fields;
use wire::kinds::{Name, Sequence};
use wire::refusal::Refusal;

// The highest number that a field of four bytes holds.
pub const HIGHEST: u64 = 4294967295;

// The blocks of Messages begin at byte 7. A count of 0 is a heartbeat: its number is the next to be sent.
#[derive(Clone, Copy)]
pub enum Down {
    Accept { session: Name, next: Sequence },
    Reject { reason: u8 },
    Messages { first: Sequence, count: u16 },
    End { total: Sequence },
}

#[tactic(auto, unfolding(crate::specs::Down::read_a))]
fn read_accept(d: &[u8]) -> Result<Down, Refusal>
    ensures { result ≡ read_a d.now told_by down_of }
{
    if d.len() != 15 {
        return Err(Refusal::Framing);
    }
    let session = &d[1..11];
    if !text::is_text_then_spaces(session) {
        return Err(Refusal::Form);
    }
    if text::is_blank(session) {
        return Err(Refusal::Absent);
    }
    let next = fields::get4(d, 11) as u64;
    if next == 0 {
        return Err(Refusal::Absent);
    }
    Ok(Down::Accept {
        session: names::get_name(session, 0),
        next: Sequence(next),
    })
}

#[tactic(auto, unfolding(crate::specs::Down::read_j))]
fn read_reject(d: &[u8]) -> Result<Down, Refusal>
    ensures { result ≡ read_j d.now told_by down_of }
{
    if d.len() != 2 {
        return Err(Refusal::Framing);
    }
    match d[1] {
        b'A' | b'S' => Ok(Down::Reject { reason: d[1] }),
        _ => Err(Refusal::Form),
    }
}

#[tactic(auto, unfolding(crate::specs::Down::read_s))]
fn read_messages(d: &[u8]) -> Result<Down, Refusal>
    ensures { result ≡ read_s d.now told_by down_of }
{
    if d.len() < 7 {
        return Err(Refusal::Framing);
    }
    let count = fields::get2(d, 5);
    if !blocks::exactly(d, 7, count) {
        return Err(Refusal::Framing);
    }
    let first = fields::get4(d, 1) as u64;
    if first == 0 {
        return Err(Refusal::Absent);
    }
    if HIGHEST < first + count as u64 {
        return Err(Refusal::Bound);
    }
    Ok(Down::Messages {
        first: Sequence(first),
        count,
    })
}

#[tactic(auto, unfolding(crate::specs::Down::read_e))]
fn read_end(d: &[u8]) -> Result<Down, Refusal>
    ensures { result ≡ read_e d.now told_by down_of }
{
    if d.len() != 5 {
        return Err(Refusal::Framing);
    }
    let total = fields::get4(d, 1) as u64;
    if HIGHEST <= total {
        return Err(Refusal::Bound);
    }
    Ok(Down::End {
        total: Sequence(total),
    })
}

#[tactic(auto, unfolding(crate::specs::Down::read))]
pub fn read_down(d: &[u8]) -> Result<Down, Refusal>
    ensures { result ≡ read d.now told_by down_of }
{
    if d.len() == 0 {
        return Err(Refusal::Empty);
    }
    if LIMIT < d.len() {
        return Err(Refusal::Overlong);
    }
    match d[0] {
        b'A' => read_accept(d),
        b'J' => read_reject(d),
        b'S' => read_messages(d),
        b'E' => read_end(d),
        _ => Err(Refusal::UnknownType),
    }
}
