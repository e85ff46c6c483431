// Writing a packet.
ghost use Rattle.std.specs.Prelude.{◌≡◌, ◌+◌, ◌≤◌, length};
ghost use Rattle.std.proofs.lemmas.List.Edits.{sets};
ghost use Rattle.wire.specs.Reply.{Settled};
ghost use Rattle.memx_tcp.specs.Layout.{fields_of, size};
ghost use Rattle.memx_tcp.specs.Packet.{header_size, laid};
ghost use Rattle.memx_tcp.specs.Types.{byte_of};
ghost use Rattle.memx_tcp.specs.Writing.{values_of, reply};

use crate::layout;
use crate::packet::Fields;
use crate::types::Kind;
use wire::refusal::Refusal;
use wire::{fields, output};

// Lays each field where its type has it.
#[tactic(auto, using(crate::proofs::OneByte::letter_laid), unfolding(crate::specs::Layout::fields_of, crate::specs::Layout::size, crate::specs::Packet::laid, crate::specs::Writing::values_of))]
fn put_fields(kind: Kind, p: Fields, out: &mut [u8])
    requires { (p.kind ≡ byte_of kind) × (header_size + size (fields_of p.kind) ≤ length out.old) }
    ensures { out.new ≡ sets out.old header_size (laid (fields_of p.kind) (values_of p)) }
{
    match kind {
        Kind::Heartbeat | Kind::EndOfSession | Kind::Sequenced | Kind::Unsequenced => {}
        Kind::LoginAccepted
        | Kind::LoginRejected
        | Kind::ReplayRejected
        | Kind::StreamRejected
        | Kind::Login => {
            out[layout::FIRST] = p.letter;
        }
        Kind::StartOfSession | Kind::ReplayAll => {
            fields::put8(out, layout::FIRST, p.session.0);
        }
        Kind::ReplayBegin => {
            fields::put8(out, layout::FIRST, p.number.0);
            fields::put4(out, layout::SECOND, p.count);
        }
        Kind::ReplayComplete => {
            fields::put4(out, layout::FIRST, p.count);
        }
        Kind::StreamBegin => {
            fields::put8(out, layout::FIRST, p.number.0);
            fields::put8(out, layout::SECOND, p.top.0);
        }
        Kind::StreamComplete => {
            fields::put8(out, layout::FIRST, p.number.0);
        }
        Kind::Replay => {
            fields::put8(out, layout::FIRST, p.session.0);
            fields::put8(out, layout::SECOND, p.number.0);
            fields::put4(out, layout::THIRD, p.count);
        }
        Kind::Stream => {
            fields::put8(out, layout::FIRST, p.session.0);
            fields::put8(out, layout::SECOND, p.number.0);
        }
    }
}

// How many bytes the fields have; those of a type that the paper lacks none.
fn fixed(kind: u8) -> usize
    ensures { result ≡ size (fields_of kind) }
{
    match Kind::try_from(kind) {
        Ok(kind) => layout::fixed(kind),
        Err(_) => 0,
    }
}

// The body is the token or the payload.
pub fn write(p: Fields, body: &[u8], out: &mut [u8]) -> Result<usize, Refusal>
    ensures { Settled (reply p body.now (length out.old)) out.old result out.new }
{
    let end = layout::HEADER + fixed(p.kind);
    if layout::LIMIT - end < body.len() {
        return Err(Refusal::Overlong);
    }
    let kind = Kind::try_from(p.kind)?;
    if layout::most(kind) < body.len() {
        return Err(Refusal::Framing);
    }
    if !layout::is_lettered(kind, p) {
        return Err(Refusal::Form);
    }
    if !layout::is_numbered(kind, p) {
        return Err(Refusal::Absent);
    }
    let size = end + body.len();
    if out.len() < size {
        return Err(Refusal::Room);
    }
    out[0] = p.kind;
    fields::put2(out, 1, (size - layout::HEADER) as u16);
    put_fields(kind, p, out);
    output::copy(out, end, body, 0, body.len());
    Ok(size)
}
