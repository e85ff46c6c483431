// SoupTCP as it comes off the wire, laid flat.
#![tactic(auto)]

ghost use Rattle.std.specs.Prelude.{◌≡◌, ◌+◌, ◌≤◌, length, take, drop};
ghost use Rattle.soup.specs.Read.{read};
ghost use Rattle.wire.specs.Checks.{taken, ◌told_by◌};
ghost use Rattle.soup.specs.Reading.{packet_of};
ghost use Rattle.soup_pieces.specs.Eating.{Returned};
ghost use Rattle.soup_pieces.specs.Calling.{number_in};
ghost use Rattle.flat_packet.specs.Packets.{nothing};
ghost use Rattle.flat_soup.specs.Reading.{soup_read};
ghost use Rattle.flat_pieces.specs.Taking.{pieces_of, flat_pieces, take_verdict, FlatAnswered};
ghost use Rattle.flat_pieces.specs.Laying.{none_ended, up_to, with_fields};

use flat::flag;
use flat_packet::{Packet, Read};
use soup::reading::Reading;
use soup_pieces::{Pieces, Taken};
use wire::kinds::Sequence;
use wire::output;
use wire::refusal::Refusal;

// What is handed from call to call, with the buffer.
#[repr(C)]
#[derive(Clone, Copy)]
pub struct FlatPieces {
    pub kept: u64,
    pub dropping: u8,
    pub next: u64,
}

// what: 0 the piece is used up, 1 a packet, 2 a refused packet.
#[repr(C)]
#[derive(Clone, Copy)]
pub struct FlatPiece {
    pub refusal: u64,
    pub place: u64,
    pub what: u8,
    pub why: u64,
    pub number: u64,
    pub bytes: u64,
    pub packet: Packet,
    pub pieces: FlatPieces,
}

fn pieces_of(given: FlatPieces) -> Pieces
    ensures { result ≡ pieces_of given }
{
    Pieces {
        kept: given.kept as usize,
        dropping: given.dropping == 1,
        next: Sequence(given.next),
    }
}

fn flat_pieces(after: Pieces) -> FlatPieces
    ensures { result ≡ flat_pieces after }
{
    let next = after.next;
    FlatPieces {
        kept: after.kept as u64,
        dropping: flag::byte_of(after.dropping),
        next: next.0,
    }
}

// Before anything has ended: all is 0 but the pieces.
fn none_ended(given: FlatPieces) -> FlatPiece
    ensures { result ≡ none_ended given }
{
    FlatPiece {
        refusal: 0,
        place: 0,
        what: 0,
        why: 0,
        number: 0,
        bytes: 0,
        packet: flat_packet::nothing(),
        pieces: given,
    }
}

// The piece is taken up to a place.
fn up_to(flat: FlatPiece, place: usize, what: u8, bytes: usize, after: Pieces) -> FlatPiece
    ensures { result ≡ up_to flat place what bytes after }
{
    let pieces = flat_pieces(after);
    let mut flat = flat;
    flat.place = place as u64;
    flat.what = what;
    flat.bytes = bytes as u64;
    flat.pieces = pieces;
    flat
}

// The texts are copied as they stand: taken apart into the reader's packed names and put together again they would cost every answer.
fn text<const N: usize>(s: &[u8], at: usize) -> [u8; N]
    requires { at + N ≤ length s.now }
    ensures { result ≡ take N (drop at s.now) }
{
    let mut text = [0; N];
    output::copy(&mut text, 0, s, at, N);
    text
}

// What `hp_soup_read` would say of the bytes, by what the reader has found. The reader's own flat function is not called: with a second
// caller the compiler would no longer lay it into `hp_soup_read`, and that would take half as long again.
fn told(said: Reading, bytes: &[u8]) -> Read
    requires { read bytes.now told_by packet_of ≡ taken said }
    ensures { result ≡ soup_read bytes.now }
{
    let kind = bytes[0];
    match said {
        Reading::Accept { session: _, number } => flat_packet::named(text(bytes, 1), number.0),
        Reading::Reject { reason } => flat_packet::rejected(reason),
        Reading::Login {
            user: _,
            password: _,
            session: _,
            number,
        } => {
            let user = text(bytes, 1);
            flat_packet::logged_in(user, text(bytes, 7), text(bytes, 17), number.0, 0)
        }
        Reading::Debug { start, length }
        | Reading::Sequenced { start, length }
        | Reading::Unsequenced { start, length } => {
            flat_packet::payload(kind, start as u64, length as u64, 0)
        }
        _ => flat_packet::bare(kind, 0),
    }
}

// The number of an `S`; another packet has none, and 0 stands for it.
fn number_of(number: Option<Sequence>) -> u64
    ensures { result ≡ number_in number }
{
    match number {
        Some(number) => number.0,
        None => 0,
    }
}

// The fields of a packet. Those of an `S`, by far the most frequent, are stored at once.
fn with_fields(flat: FlatPiece, said: Reading, bytes: &[u8]) -> FlatPiece
    requires { (flat.packet ≡ nothing) × (read bytes.now told_by packet_of ≡ taken said) }
    ensures { result ≡ with_fields flat (soup_read bytes.now).packet }
{
    let mut flat = flat;
    match said {
        Reading::Sequenced { start, length } => {
            flat.packet.kind = b'S';
            flat.packet.start = start as u64;
            flat.packet.length = length as u64;
        }
        _ => {
            flat.packet = told(said, bytes).packet;
        }
    }
    flat
}

// What the room answers; a flag that is none is 10.
fn verdict(
    given: FlatPieces,
    buffer: &mut [u8],
    piece: &[u8],
    place: usize,
) -> Result<Taken, Refusal>
    ensures { Returned (take_verdict given buffer.old piece.now place) buffer.old
        piece.now result buffer.new }
{
    if !flag::is_flag(given.dropping) {
        return Err(Refusal::Broken);
    }
    soup_pieces::take(pieces_of(given), buffer, piece, place)
}

// The answer's zeros are stored before the call: stored just before the answer is copied, they would hold the copy up.
pub fn take(given: FlatPieces, buffer: &mut [u8], piece: &[u8], place: u64) -> FlatPiece
    ensures { FlatAnswered (take_verdict given buffer.old piece.now place) given buffer.old
        piece.now result buffer.new }
{
    let none = none_ended(given);
    match verdict(given, buffer, piece, place as usize) {
        Err(why) => FlatPiece {
            refusal: why.number() as u64,
            ..none
        },
        Ok(Taken::UsedUp { after }) => up_to(none, piece.len(), 0, 0, after),
        Ok(
            Taken::Packet {
                packet,
                number,
                bytes,
                place,
                after,
            },
        ) => {
            let mut flat = up_to(none, place, 1, bytes, after);
            flat.number = number_of(number);
            with_fields(flat, packet, &buffer[..bytes])
        }
        Ok(
            Taken::Unfit {
                why,
                bytes,
                place,
                after,
            },
        ) => {
            let mut flat = up_to(none, place, 2, bytes, after);
            flat.why = why.number() as u64;
            flat
        }
    }
}
