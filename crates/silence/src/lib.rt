// Silence: whether too long has passed since a packet was heard or sent.
#![tactic(auto)]

ghost use Rattle.std.specs.Prelude.{◌≡◌};
ghost use Rattle.silence.specs.Silence.{exceeds};

use wire::kinds::Tick;
use wire::refusal::Refusal;

fn exceeds(limit: u64, now: Tick, last: Tick) -> Result<bool, Refusal>
    ensures { result ≡ exceeds limit now last }
{
    if now < last {
        return Err(Refusal::Clock);
    }
    Ok(limit < now.0 - last.0)
}

// The line is lost after more than ten seconds without a packet.
pub fn line_lost(now: Tick, heard: Tick) -> Result<bool, Refusal>
    ensures { result ≡ exceeds 10000 now heard }
{
    exceeds(10_000, now, heard)
}

// A Soup heartbeat is due more than a second after the last packet sent.
pub fn heartbeat_due(now: Tick, sent: Tick) -> Result<bool, Refusal>
    ensures { result ≡ exceeds 1000 now sent }
{
    exceeds(1_000, now, sent)
}
