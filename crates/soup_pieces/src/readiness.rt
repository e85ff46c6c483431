// Whether what is handed from call to call hangs together, so that the next call can go on from it.
ghost use Rattle.std.specs.Prelude.{◌≡◌};
ghost use Rattle.soup_pieces.specs.Eating.{ready};

use crate::Pieces;
use soup::line;
use soup::line::is_unbroken;

pub(crate) fn is_ready(pieces: Pieces, buffer: &[u8]) -> bool
    ensures { result ≡ ready pieces buffer.now }
{
    let kept = pieces.kept;
    if buffer.len() < line::LONGEST {
        return false;
    }
    if line::LONGEST <= kept {
        return false;
    }
    if pieces.dropping {
        return kept == 0;
    }
    is_unbroken(&buffer[..kept])
}
