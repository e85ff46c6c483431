// Reading a packet.
ghost use Rattle.std.specs.Prelude.{◌≡◌, ◌≤◌, length};
ghost use Rattle.wire.specs.Checks.{checked, taken, ◌told_by◌};
ghost use Rattle.memx.specs.Packet.{header_size};
ghost use Rattle.memx.specs.Read.{header_in, number_in, count_in, news_checks, messages_checks, read};
ghost use Rattle.memx.specs.Reading.{memx_of};
ghost use Rattle.memx.specs.declared.reading.Says.TheVariants.{Messages};

use crate::layout;
use crate::layout::Kind;
use wire::fields;
use wire::kinds::{Sequence, SessionId};
use wire::refusal::Refusal;

// What a packet says. `extra` is how many bytes the header has past its own fields: they stand from layout::HEADER on, and the
// blocks of messages begin so many bytes behind layout::BLOCKS.
#[derive(Clone, Copy)]
pub struct Memx {
    pub session: SessionId,
    pub extra: u8,
    pub says: Says,
}

// What it says by its type: the highest number published, or the first message's number and how many there are.
#[derive(Clone, Copy)]
pub enum Says {
    Heartbeat(Sequence),
    Shutdown(Sequence),
    Messages { first: Sequence, count: u16 },
}

// A heartbeat and a shutdown say the same.
#[tactic(auto, using(wire::proofs::Tests::tests))]
fn read_news(d: &[u8]) -> Result<Sequence, Refusal>
    requires { header_size ≤ length d.now }
    ensures { result ≡ checked (news_checks d.now) (taken (record { 0 = number_in d.now })) }
{
    let header = d[1] as usize;
    if d.len() != header {
        return Err(Refusal::Framing);
    }
    let highest = fields::get8(d, layout::NUMBER);
    if highest == layout::CEILING {
        return Err(Refusal::Bound);
    }
    Ok(Sequence(highest))
}

#[tactic(auto, using(wire::proofs::Tests::tests))]
fn read_messages(d: &[u8]) -> Result<Says, Refusal>
    requires { (header_size ≤ length d.now) × (header_size ≤ header_in d.now) }
    ensures { result ≡ checked (messages_checks d.now)
        (taken (Messages (record { 0 = number_in d.now }) (count_in d.now))) }
{
    let header = d[1] as usize;
    let place = header + 2;
    if d.len() < place {
        return Err(Refusal::Framing);
    }
    let count = fields::get2(d, header);
    if !blocks::exactly(d, place, count) {
        return Err(Refusal::Framing);
    }
    let first = fields::get8(d, layout::NUMBER);
    if first == 0 {
        return Err(Refusal::Absent);
    }
    if count == 0 {
        return Err(Refusal::Absent);
    }
    if layout::CEILING - first < count as u64 {
        return Err(Refusal::Bound);
    }
    Ok(Says::Messages {
        first: Sequence(first),
        count,
    })
}

#[tactic(auto, using(wire::proofs::Tests::tests), unfolding(crate::specs::Read::read))]
pub fn read(d: &[u8]) -> Result<Memx, Refusal>
    ensures { result ≡ read d.now told_by memx_of }
{
    if d.len() == 0 {
        return Err(Refusal::Empty);
    }
    if layout::LIMIT < d.len() {
        return Err(Refusal::Overlong);
    }
    let kind = Kind::try_from(d[0])?;
    if d.len() < layout::HEADER {
        return Err(Refusal::Framing);
    }
    if d[1] < layout::HEADER as u8 {
        return Err(Refusal::Form);
    }
    let says = match kind {
        Kind::Heartbeat => Says::Heartbeat(read_news(d)?),
        Kind::Shutdown => Says::Shutdown(read_news(d)?),
        Kind::Messages => read_messages(d)?,
    };
    Ok(Memx {
        session: SessionId(fields::get8(d, layout::SESSION)),
        extra: d[1] - layout::HEADER as u8,
        says,
    })
}
