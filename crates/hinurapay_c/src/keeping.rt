// The session record: opened, taken into, how it stands, what it asks for.
ghost use Rattle.std.specs.Prelude.{◌≡◌, length};
ghost use Rattle.flat_record.specs.Asking.{ask_answer};
ghost use Rattle.flat_record.specs.Keeping.{FlatAnswered, take_verdict, standing_answer, range_answer};
ghost use Rattle.flat_record.specs.Opening.{open_ufo, open_memx};

use flat_clock::{FlatPatience, FlatSheet};
use flat_record::keeping::{FlatRange, FlatRecord, FlatStanding, FlatTaken};
use flat_record::opening::FlatOpened;
use flat_record::requesting::FlatAsked;
use hinurapay::keeping;

#[unsafe(no_mangle)]
pub extern "C" fn hp_open_ufo(name: &[u8; 10]) -> FlatOpened
    ensures { result ≡ open_ufo name.now }
{
    keeping::hp_open_ufo(name)
}

#[unsafe(no_mangle)]
pub extern "C" fn hp_open_memx(session: u64) -> FlatOpened
    ensures { result ≡ open_memx session }
{
    keeping::hp_open_memx(session)
}

#[unsafe(no_mangle)]
pub extern "C" fn hp_take(
    given: FlatRecord,
    area: &mut [u8],
    datagram: &[u8],
    out: &mut [u8],
) -> FlatTaken
    ensures { FlatAnswered (take_verdict given area.old datagram.now (length out.old))
        given area.old out.old result area.new out.new }
{
    keeping::hp_take(given, area, datagram, out)
}

#[unsafe(no_mangle)]
pub extern "C" fn hp_standing_of(given: FlatRecord) -> FlatStanding
    ensures { result ≡ standing_answer given }
{
    keeping::hp_standing_of(given)
}

#[unsafe(no_mangle)]
pub extern "C" fn hp_missing_range(given: FlatRecord, place: u64) -> FlatRange
    ensures { result ≡ range_answer given place }
{
    keeping::hp_missing_range(given, place)
}

#[unsafe(no_mangle)]
pub extern "C" fn hp_ask(
    given: FlatRecord,
    sheet: FlatSheet,
    patience: FlatPatience,
    elapsed: f64,
) -> FlatAsked
    ensures { result ≡ ask_answer given sheet patience elapsed }
{
    keeping::hp_ask(given, sheet, patience, elapsed)
}
