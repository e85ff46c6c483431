// Timing answers, waiting for them, and silence.
ghost use Rattle.std.specs.Prelude.{◌≡◌};
ghost use Rattle.flat_clock.specs.Waiting.{time_answer, wait_answer, line_lost, heartbeat_due};

use flat_clock::{FlatPatience, FlatSaid, FlatSheet, FlatTimed, FlatWait};
use hinurapay::waiting;

#[unsafe(no_mangle)]
pub extern "C" fn hp_time(sheet: FlatSheet, sample: f64) -> FlatTimed
    ensures { result ≡ time_answer sheet sample }
{
    waiting::hp_time(sheet, sample)
}

#[unsafe(no_mangle)]
pub extern "C" fn hp_wait_of(sheet: FlatSheet, patience: FlatPatience) -> FlatWait
    ensures { result ≡ wait_answer sheet patience }
{
    waiting::hp_wait_of(sheet, patience)
}

#[unsafe(no_mangle)]
pub extern "C" fn hp_line_lost(now: u64, heard: u64) -> FlatSaid
    ensures { result ≡ line_lost now heard }
{
    waiting::hp_line_lost(now, heard)
}

#[unsafe(no_mangle)]
pub extern "C" fn hp_heartbeat_due(now: u64, sent: u64) -> FlatSaid
    ensures { result ≡ heartbeat_due now sent }
{
    waiting::hp_heartbeat_due(now, sent)
}
