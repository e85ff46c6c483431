// An unfinished packet is gathered in the buffer until it ends. What comes is copied behind what is kept:
//
//             0                      kept                 kept + most          4,098        end
//             |                      |                    |                    |            |
//    buffer   | kept, no linefeed    | gathered now       | room that is left  | stays as   |
//             | among these bytes    |                    | for the packet     | it is      |
//                                              ^
//                                              | copied
//             0                      from      |          from + most          end
//             |                      |                    |                    |
//    piece    | handed out before,   | up to a linefeed,  | for the next call  |
//             | or dropped           | or most bytes      |                    |
//
// `most` is what is left of the piece, or what there is room for if that is less. A linefeed among these bytes ends the packet, which is
// then the buffer's first bytes; without one all of the piece is kept, or the packet is refused at its 4,098th byte.
ghost use Rattle.std.specs.Prelude.{◌≡◌, true, false, ◌-◌, ◌≤◌, min, length, take, drop};
ghost use Rattle.wire.specs.Checks.{taken};
ghost use Rattle.soup.specs.Packet.{line_limit};
ghost use Rattle.soup.specs.Read.{unbroken};
ghost use Rattle.soup_pieces.specs.Machine.{first};
ghost use Rattle.soup_pieces.specs.Eating.{Returned};

use crate::closing::{close, empty};
use crate::searching::linefeed;
use crate::{Pieces, Taken};
use soup::line;
use wire::kinds::Sequence;
use wire::output;
use wire::refusal::Refusal;

fn smaller(a: usize, b: usize) -> usize
    ensures { result ≡ min a b }
{
    if a < b { a } else { b }
}

// From a place of the piece on, behind what is kept: up to a linefeed, the 4,098th byte, or the piece's end.
pub(crate) fn gather(
    kept: usize,
    next: Sequence,
    buffer: &mut [u8],
    piece: &[u8],
    from: usize,
) -> Taken
    requires { (kept ≤ line_limit - 1) × (line_limit ≤ length buffer.old) × (unbroken (take kept buffer.old) ≡ true)
        × (from ≤ length piece.now) }
    ensures { Returned (taken (first (record { kept = take kept buffer.old; dropping = false; next = next.0 })
        (drop from piece.now))) buffer.old piece.now (taken result) buffer.new }
{
    let room = line::LONGEST - kept;
    let left = piece.len() - from;
    let most = smaller(left, room);
    let to = from + most;
    let found = linefeed(piece, from, to);
    if found < to {
        let size = found + 1 - from;
        output::copy(buffer, kept, piece, from, size);
        return close(&buffer[..kept + size], next, found + 1);
    }
    output::copy(buffer, kept, piece, from, most);
    if left < room {
        return Taken::UsedUp {
            after: Pieces {
                kept: kept + most,
                dropping: false,
                next,
            },
        };
    }
    Taken::Unfit {
        why: Refusal::Overlong,
        bytes: line::LONGEST,
        place: to,
        after: empty(true, next),
    }
}
