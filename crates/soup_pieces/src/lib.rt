// SoupTCP as it comes off the wire: pieces that are cut anywhere go in, and whole packets come out in order.
#![tactic(auto)]

mod closing;
mod gathering;
mod readiness;
mod searching;

ghost use Rattle.soup_pieces.specs.Eating.{eating, Returned};

use crate::gathering::gather;
use crate::readiness::is_ready;
use crate::searching::linefeed;
use soup::reading::Reading;
use wire::kinds::Sequence;
use wire::refusal::Refusal;

// What is handed from call to call, with the buffer.
#[derive(Clone, Copy)]
pub struct Pieces {
    // How many bytes of an unfinished packet stand at the buffer's start: C lends the buffer beside it.
    pub kept: usize,
    // The rest of an overlong packet is being dropped.
    pub dropping: bool,
    // The number of the next `S`, 0 before Login Accepted, as the laws on `Machine.next` have it.
    pub next: Sequence,
}

// Up to the first packet that ends. Its bytes are the buffer's first `bytes`, and `place` is where to go on in the piece.
#[derive(Clone, Copy)]
pub enum Taken {
    // The piece is used up, and no packet ended.
    UsedUp {
        after: Pieces,
    },
    // The number is that of an `S`; other packets have none.
    Packet {
        packet: Reading,
        number: Option<Sequence>,
        bytes: usize,
        place: usize,
        after: Pieces,
    },
    // A packet that is refused is used up as well.
    Unfit {
        why: Refusal,
        bytes: usize,
        place: usize,
        after: Pieces,
    },
}

// Where the call itself is refused, nothing has changed.
pub fn take(pieces: Pieces, buffer: &mut [u8], piece: &[u8], place: usize) -> Result<Taken, Refusal>
    ensures { Returned (eating pieces buffer.old piece.now place) buffer.old piece.now result
        buffer.new }
{
    if !is_ready(pieces, buffer) {
        return Err(Refusal::Broken);
    }
    if piece.len() < place {
        return Err(Refusal::Framing);
    }
    let mut from = place;
    if pieces.dropping {
        let found = linefeed(piece, place, piece.len());
        if found == piece.len() {
            return Ok(Taken::UsedUp { after: pieces });
        }
        from = found + 1;
    }
    Ok(gather(pieces.kept, pieces.next, buffer, piece, from))
}
