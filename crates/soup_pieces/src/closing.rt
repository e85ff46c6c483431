// A line that has ended is read, if it needs to be, and handed out if it is its turn.
ghost use Rattle.std.specs.Prelude.{◌≡◌};
ghost use Rattle.wire.specs.Checks.{taken, checked, ◌told_by◌};
ghost use Rattle.soup_pieces.specs.Machine.{counted, turn_checks, judge};
ghost use Rattle.soup_pieces.specs.Closing.{Line, closed, empty_pieces, judged_of};

use crate::{Pieces, Taken};
use soup::reading;
use soup::reading::Reading;
use wire::kinds::Sequence;
use wire::refusal::Refusal;

// One past the highest number that a message can have.
const PAST_LAST: u64 = 18446744073709551615;

// A packet whose turn it is, with its number if it is an `S`, and the number of the next `S` behind it.
#[derive(Clone, Copy)]
struct Judged {
    packet: Reading,
    number: Option<Sequence>,
    next: Sequence,
}

pub(crate) fn empty(dropping: bool, next: Sequence) -> Pieces
    ensures { result ≡ empty_pieces dropping next.0 }
{
    Pieces {
        kept: 0,
        dropping,
        next,
    }
}

// Whether it is the turn of an `S` whose number would be `next`.
fn check_turn(next: Sequence) -> Result<(), Refusal>
    ensures { result ≡ checked (turn_checks next.0 counted) (taken tt) }
{
    if next.0 == 0 {
        return Err(Refusal::NotForRecord);
    }
    if next.0 == PAST_LAST {
        return Err(Refusal::Bound);
    }
    Ok(())
}

// A line that begins with `S` is a message, whatever it carries: it needs no reading.
fn judge(line: &[u8], next: Sequence) -> Result<Judged, Refusal>
    requires { Line line.now }
    ensures { result ≡ judge next.0 line.now told_by judged_of next.0 }
{
    if line[0] == b'S' {
        check_turn(next)?;
        return Ok(Judged {
            packet: Reading::Sequenced {
                start: 1,
                length: line.len() - 2,
            },
            number: Some(next),
            next: Sequence(next.0 + 1),
        });
    }
    let packet = reading::read(line)?;
    let behind = match packet {
        Reading::Accept { session: _, number } if next.0 == 0 => number,
        Reading::Accept { .. } => return Err(Refusal::NotForRecord),
        _ => next,
    };
    Ok(Judged {
        packet,
        number: None,
        next: behind,
    })
}

// `place` is where to go on in the piece.
pub(crate) fn close(line: &[u8], next: Sequence, place: usize) -> Taken
    requires { Line line.now }
    ensures { result ≡ closed line.now next.0 place }
{
    let bytes = line.len();
    match judge(line, next) {
        Ok(judged) => Taken::Packet {
            packet: judged.packet,
            number: judged.number,
            bytes,
            place,
            after: empty(false, judged.next),
        },
        Err(why) => Taken::Unfit {
            why,
            bytes,
            place,
            after: empty(false, next),
        },
    }
}
