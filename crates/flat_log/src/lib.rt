// The lending end: the log, and what it answers.
#![tactic(auto)]

ghost use Rattle.std.specs.Prelude.{◌≡◌, length};
ghost use Rattle.flat.specs.Wrote.{FlatSettled};
ghost use Rattle.flat_log.specs.Lending.{known_log, flat_log, flat_logged, FlatEntered, add_verdict, add_many_verdict, end_answer};
ghost use Rattle.flat_log.specs.Lending.{answer_flat, heartbeat_flat, end_packet_flat};

use flat::flag;
use flat::wrote::{Wrote, wrote_of};
use lent_log::Log;
use wire::kinds::Sequence;
use wire::refusal::Refusal;

#[repr(C)]
#[derive(Clone, Copy)]
pub struct FlatLog {
    pub count: u64,
    pub used: u64,
    pub ended: u8,
}

#[repr(C)]
#[derive(Clone, Copy)]
pub struct FlatLogged {
    pub refusal: u64,
    pub log: FlatLog,
}

// The log that a flat one is, if its flag is a flag.
fn log_of(given: FlatLog) -> Result<Log, Refusal>
    ensures { result ≡ known_log given }
{
    if !flag::is_flag(given.ended) {
        return Err(Refusal::Broken);
    }
    Ok(Log {
        count: given.count,
        used: given.used as usize,
        ended: given.ended == 1,
    })
}

fn flat_log(log: Log) -> FlatLog
    ensures { result ≡ flat_log log }
{
    FlatLog {
        count: log.count,
        used: log.used as u64,
        ended: flag::byte_of(log.ended),
    }
}

// On a refusal the log that was given.
fn flat_logged(given: FlatLog, answer: Result<Log, Refusal>) -> FlatLogged
    ensures { result ≡ flat_logged given answer }
{
    match answer {
        Err(why) => FlatLogged {
            refusal: why.number() as u64,
            log: given,
        },
        Ok(after) => FlatLogged {
            refusal: 0,
            log: flat_log(after),
        },
    }
}

// A match here, and no and_then: nothing says of a closure that isn't called that the bytes it would write stay as they are.
pub fn add(given: FlatLog, bytes: &mut [u8], message: &[u8]) -> FlatLogged
    ensures { FlatEntered (add_verdict given bytes.old message.now)
        given bytes.old result bytes.new }
{
    match log_of(given) {
        Err(why) => flat_logged(given, Err(why)),
        Ok(log) => flat_logged(given, lent_log::add(log, bytes, message)),
    }
}

// The messages are given as their blocks, and all of them are added or none.
pub fn add_many(given: FlatLog, bytes: &mut [u8], blocks: &[u8]) -> FlatLogged
    ensures { FlatEntered (add_many_verdict given bytes.old blocks.now)
        given bytes.old result bytes.new }
{
    match log_of(given) {
        Err(why) => flat_logged(given, Err(why)),
        Ok(log) => flat_logged(given, lent_log::add_many(log, bytes, blocks)),
    }
}

pub fn declare_end(given: FlatLog, bytes: &[u8]) -> FlatLogged
    ensures { result ≡ end_answer given bytes.now }
{
    let answer = log_of(given).and_then(|log| lent_log::declare_end(log, bytes));
    flat_logged(given, answer)
}

pub fn answer(given: FlatLog, bytes: &[u8], first: u32, count: u16, out: &mut [u8]) -> Wrote
    ensures { FlatSettled (answer_flat given bytes.now first count (length out.old))
        out.old result out.new }
{
    let first = Sequence(first as u64);
    match log_of(given) {
        Err(why) => wrote_of(Err(why)),
        Ok(log) => wrote_of(lend::answer(log, bytes, first, count, out)),
    }
}

pub fn heartbeat(given: FlatLog, bytes: &[u8], out: &mut [u8]) -> Wrote
    ensures { FlatSettled (heartbeat_flat given bytes.now (length out.old))
        out.old result out.new }
{
    match log_of(given) {
        Err(why) => wrote_of(Err(why)),
        Ok(log) => wrote_of(lend::heartbeat(log, bytes, out)),
    }
}

pub fn end_packet(given: FlatLog, bytes: &[u8], out: &mut [u8]) -> Wrote
    ensures { FlatSettled (end_packet_flat given bytes.now (length out.old))
        out.old result out.new }
{
    match log_of(given) {
        Err(why) => wrote_of(Err(why)),
        Ok(log) => wrote_of(lend::end_packet(log, bytes, out)),
    }
}
