// Reading a packet.
ghost use Rattle.std.specs.Prelude.{◌≡◌, true, ◌||◌, ◌≤◌, ◌<◌, length, drop};
ghost use Rattle.wire.specs.Checks.{◌is◌, ◌told_by◌};
ghost use Rattle.memx_tcp.specs.Layout.{most_of, size};
ghost use Rattle.memx_tcp.specs.Packet.{header_size, limit};
ghost use Rattle.memx_tcp.specs.Read.{kind_in, values_in, fields_in, end_in, framed, read};
ghost use Rattle.memx_tcp.specs.Reading.{fields_by, tcp_of};
ghost use Rattle.memx_tcp.specs.Types.{byte_of};

use crate::layout;
use crate::packet::Fields;
use crate::types::Kind;
use wire::fields::{get2, get4, get8};
use wire::kinds::{Sequence, SessionId};
use wire::refusal::Refusal;

// What a packet says: its fields, and where its token or payload begins and how many bytes it has, both 0 where the type
// has neither, as the C interface hands them on.
#[derive(Clone, Copy, Debug, PartialEq, Eq)]
pub struct Tcp {
    pub fields: Fields,
    pub start: usize,
    pub length: usize,
}

// Where the fields of each type stand. Laid into `read`, as what `layout` has is, for speed.
#[tactic(auto, using(crate::proofs::OneByte::letter_read), unfolding(crate::specs::Layout::fields_of, crate::specs::Layout::size, crate::specs::Reading::fields_by, crate::specs::Read::values_in))]
#[inline(always)]
fn fields_of(kind: Kind, d: &[u8]) -> Fields
    requires { (kind_in d.now ≡ byte_of kind) × (end_in d.now ≤ length d.now) }
    ensures { result ≡ fields_by (kind_in d.now) (values_in (fields_in d.now) (drop header_size d.now)) }
{
    let none = Fields::none(kind.byte());
    match kind {
        Kind::Heartbeat | Kind::EndOfSession | Kind::Sequenced | Kind::Unsequenced => none,
        Kind::LoginAccepted
        | Kind::LoginRejected
        | Kind::ReplayRejected
        | Kind::StreamRejected
        | Kind::Login => Fields {
            letter: d[layout::FIRST],
            ..none
        },
        Kind::StartOfSession | Kind::ReplayAll => Fields {
            session: SessionId(get8(d, layout::FIRST)),
            ..none
        },
        Kind::ReplayBegin => Fields {
            number: Sequence(get8(d, layout::FIRST)),
            count: get4(d, layout::SECOND),
            ..none
        },
        Kind::ReplayComplete => Fields {
            count: get4(d, layout::FIRST),
            ..none
        },
        Kind::StreamBegin => Fields {
            number: Sequence(get8(d, layout::FIRST)),
            top: Sequence(get8(d, layout::SECOND)),
            ..none
        },
        Kind::StreamComplete => Fields {
            number: Sequence(get8(d, layout::FIRST)),
            ..none
        },
        Kind::Replay => Fields {
            session: SessionId(get8(d, layout::FIRST)),
            number: Sequence(get8(d, layout::SECOND)),
            count: get4(d, layout::THIRD),
            ..none
        },
        Kind::Stream => Fields {
            session: SessionId(get8(d, layout::FIRST)),
            number: Sequence(get8(d, layout::SECOND)),
            ..none
        },
    }
}

// Whether what the header says follows it, and that is what the type carries: `fixed` bytes of fields, and `most` bytes more at most.
fn is_framed(d: &[u8], fixed: usize, most: usize) -> bool
    requires { (fixed ≡ size (fields_in d.now)) × (most ≡ most_of (kind_in d.now)) }
    ensures { result ≡ framed d.now }
{
    if d.len() < layout::HEADER {
        return false;
    }
    let follows = d.len() - layout::HEADER;
    if get2(d, 1) as usize != follows {
        return false;
    }
    if follows < fixed {
        return false;
    }
    follows - fixed <= most
}

// A payload stands right behind the header. Most packets carry one, so that it is worth a way of its own.
fn read_payload(d: &[u8]) -> Result<Tcp, Refusal>
    requires { (0 < length d.now) × (length d.now ≤ limit) × ((kind_in d.now is 11 || kind_in d.now is 104) ≡ true) }
    ensures { result ≡ read d.now told_by tcp_of }
{
    if d.len() < layout::HEADER {
        return Err(Refusal::Framing);
    }
    let length = d.len() - layout::HEADER;
    if get2(d, 1) as usize != length {
        return Err(Refusal::Framing);
    }
    Ok(Tcp {
        fields: Fields::none(d[0]),
        start: layout::HEADER,
        length,
    })
}

pub fn read(d: &[u8]) -> Result<Tcp, Refusal>
    ensures { result ≡ read d.now told_by tcp_of }
{
    if d.len() == 0 {
        return Err(Refusal::Empty);
    }
    if layout::LIMIT < d.len() {
        return Err(Refusal::Overlong);
    }
    let byte = d[0];
    if byte == Kind::Sequenced.byte() || byte == Kind::Unsequenced.byte() {
        return read_payload(d);
    }
    let kind = Kind::try_from(byte)?;
    let fixed = layout::fixed(kind);
    let most = layout::most(kind);
    if !is_framed(d, fixed, most) {
        return Err(Refusal::Framing);
    }
    let fields = fields_of(kind, d);
    if !layout::is_lettered(kind, fields) {
        return Err(Refusal::Form);
    }
    if !layout::is_numbered(kind, fields) {
        return Err(Refusal::Absent);
    }
    let end = layout::HEADER + fixed;
    let length = d.len() - end;
    if most == 0 {
        return Ok(Tcp {
            fields,
            start: 0,
            length,
        });
    }
    Ok(Tcp {
        fields,
        start: end,
        length,
    })
}
