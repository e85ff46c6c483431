// The log: lent bytes of message blocks, how many there are, the mark where they end, and whether the end was declared.
#![tactic(auto)]

ghost use Rattle.std.specs.Prelude.{◌≡◌, ◌≤◌, length, OnOk};
ghost use Rattle.wire.specs.Checks.{checked, taken};
ghost use Rattle.blocks.specs.Blocks.{cut};
ghost use Rattle.lent_log.specs.Log.{sound, hangs, growing, to_the_end, tallied, Entered, adding, adding_many, declaring, logged_of};

use wire::refusal::Refusal;
use wire::{fields, output};

// The longest message that a packet can carry.
pub const LONGEST_MESSAGE: usize = 1463;

// The most messages that a log may have.
pub const MOST_MESSAGES: u64 = 4294967294;

// How many messages there are, where their blocks end, and whether the end was declared. The bytes stand beside it: C lends them, and
// the desk has no heap.
#[derive(Clone, Copy, Debug, PartialEq, Eq)]
pub struct Log {
    pub count: u64,
    pub used: usize,
    pub ended: bool,
}

// How many blocks fill s to its very end, none of them longer than a packet can carry.
fn tally(s: &[u8]) -> Result<usize, Refusal>
    ensures { result ≡ tallied (to_the_end s.now) }
{
    let mut at = 0;
    let mut count = 0;
    let mut small = true;
    // From block to block: how many turns there are is what is asked.
    while at < s.len() {
        let block = blocks::next(s, at)?;
        small &= block.length <= LONGEST_MESSAGE;
        at = block.next;
        count += 1;
    }
    if !small {
        return Err(Refusal::Overlong);
    }
    Ok(count)
}

// Whether exactly `count` blocks fill s, none of them longer than a packet can carry.
fn is_sound(s: &[u8], count: u64) -> bool
    ensures { result ≡ sound (cut count s.now) }
{
    let mut at = 0;
    // Not `tally(s) == Ok(count)`: that goes on to the end of s, where this stops at the count or at the first block that is too long.
    for _ in 0..count {
        match blocks::next(s, at) {
            Ok(block) if block.length <= LONGEST_MESSAGE => at = block.next,
            _ => return false,
        }
    }
    at == s.len()
}

pub fn hangs_together(log: Log, bytes: &[u8]) -> bool
    ensures { result ≡ hangs log bytes.now }
{
    if MOST_MESSAGES < log.count || bytes.len() < log.used {
        return false;
    }
    is_sound(&bytes[..log.used], log.count)
}

// Whether messages and the end may be added.
fn may_grow(log: Log, bytes: &[u8]) -> Result<(), Refusal>
    ensures grows { result ≡ checked (growing log bytes.now) (taken tt) }
    ensures bounded { OnOk result ((log.count ≤ 4294967294) × (log.used ≤ length bytes.now)) }
{
    if !hangs_together(log, bytes) {
        return Err(Refusal::Broken);
    }
    if log.ended {
        return Err(Refusal::AfterEnd);
    }
    Ok(())
}

// Adds a message at the log's end.
pub fn add(log: Log, bytes: &mut [u8], message: &[u8]) -> Result<Log, Refusal>
    ensures { Entered (adding log bytes.old message.now) bytes.old result bytes.new }
{
    may_grow(log, bytes)?;
    let len = message.len();
    if LONGEST_MESSAGE < len {
        return Err(Refusal::Overlong);
    }
    if log.count == MOST_MESSAGES {
        return Err(Refusal::Bound);
    }
    if bytes.len() - log.used < 2 + len {
        return Err(Refusal::Room);
    }
    fields::put2(bytes, log.used, len as u16);
    output::copy(bytes, log.used + 2, message, 0, len);
    Ok(Log {
        count: log.count + 1,
        used: log.used + 2 + len,
        ..log
    })
}

// Adds the messages whose blocks are lent as one slice, all of them or none.
pub fn add_many(log: Log, bytes: &mut [u8], framed: &[u8]) -> Result<Log, Refusal>
    ensures { Entered (adding_many log bytes.old framed.now) bytes.old result bytes.new }
{
    may_grow(log, bytes)?;
    let more = tally(framed)? as u64;
    if MOST_MESSAGES - log.count < more {
        return Err(Refusal::Bound);
    }
    let len = framed.len();
    if bytes.len() - log.used < len {
        return Err(Refusal::Room);
    }
    output::copy(bytes, log.used, framed, 0, len);
    Ok(Log {
        count: log.count + more,
        used: log.used + len,
        ..log
    })
}

// Declares the end.
pub fn declare_end(log: Log, bytes: &[u8]) -> Result<Log, Refusal>
    ensures { result ≡ logged_of (declaring log bytes.now) }
{
    may_grow(log, bytes)?;
    Ok(Log { ended: true, ..log })
}
