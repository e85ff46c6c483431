// SoupTCP as it comes off the wire.
ghost use Rattle.flat_pieces.specs.Taking.{FlatAnswered, take_verdict};

use flat_pieces::{FlatPiece, FlatPieces};
use hinurapay::pieces;

#[unsafe(no_mangle)]
pub extern "C" fn hp_soup_take(
    pieces: FlatPieces,
    buffer: &mut [u8],
    piece: &[u8],
    place: u64,
) -> FlatPiece
    ensures { FlatAnswered (take_verdict pieces buffer.old piece.now place)
        pieces buffer.old piece.now result buffer.new }
{
    pieces::hp_soup_take(pieces, buffer, piece, place)
}
