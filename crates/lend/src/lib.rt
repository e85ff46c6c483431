// Answering: the packet that a request gets, and the heartbeats and ends that can be had at any time.
#![tactic(auto)]

ghost use Rattle.std.specs.Prelude.{◌≡◌, true, ◌≤◌, ◌<◌, length};
ghost use Rattle.wire.specs.Checks.{taken};
ghost use Rattle.wire.specs.Datagram.{limit};
ghost use Rattle.wire.specs.Reply.{Settled};
ghost use Rattle.ufo.specs.Down.{write};
ghost use Rattle.lent_log.specs.Log.{messages_in, hangs};
ghost use Rattle.lend.specs.Answer.{packed, answer_reply, heartbeat_reply, end_packet_reply, run};

use lent_log::Log;
use wire::datagram::LIMIT;
use wire::kinds::Sequence;
use wire::refusal::Refusal;

// Blocks one after the other: how many, and the place where the last of them ends.
#[derive(Clone, Copy, Debug, PartialEq, Eq)]
struct Run {
    count: u16,
    end: usize,
}

// The blocks from a place on that one packet can carry, `count` of them at most.
fn measure(s: &[u8], at: usize, count: u16) -> Run
    ensures { result ≡ run s.now at at 0 count }
{
    let mut end = at;
    for k in 0..count {
        match blocks::next(s, end) {
            Ok(block) if block.next - at <= LIMIT - 7 => end = block.next,
            _ => return Run { count: k, end },
        }
    }
    Run { count, end }
}

// Sends messages that the log has, from a number on: as many as one packet can carry.
fn send(
    log: Log,
    bytes: &[u8],
    first: Sequence,
    count: u16,
    out: &mut [u8],
) -> Result<usize, Refusal>
    requires { (hangs log bytes.now ≡ true) × (0 < first.0) × (first.0 ≤ log.count) × (limit ≤ length out.old) }
    ensures { Settled (taken (write (packed (messages_in log bytes.now) first.0 count)))
        out.old result out.new }
{
    let held = &bytes[..log.used];
    let at = blocks::skip(held, 0, first.0 - 1)?;
    let run = measure(held, at, count);
    ufo_write::write_messages(first, run.count, &held[at..run.end], out)
}

// Answers a request for `count` messages from number `first` on.
pub fn answer(
    log: Log,
    bytes: &[u8],
    first: Sequence,
    count: u16,
    out: &mut [u8],
) -> Result<usize, Refusal>
    ensures { Settled (answer_reply log bytes.now first.0 count (length out.old))
        out.old result out.new }
{
    if !lent_log::hangs_together(log, bytes) {
        return Err(Refusal::Broken);
    }
    if first.0 == 0 || count == 0 {
        return Err(Refusal::Absent);
    }
    if out.len() < LIMIT {
        return Err(Refusal::Room);
    }
    if first.0 <= log.count {
        return send(log, bytes, first, count, out);
    }
    if log.ended {
        return ufo_write::write_end(Sequence(log.count), out);
    }
    ufo_write::write_messages(Sequence(log.count + 1), 0, &[], out)
}

pub fn heartbeat(log: Log, bytes: &[u8], out: &mut [u8]) -> Result<usize, Refusal>
    ensures { Settled (heartbeat_reply log bytes.now (length out.old))
        out.old result out.new }
{
    if !lent_log::hangs_together(log, bytes) {
        return Err(Refusal::Broken);
    }
    ufo_write::write_messages(Sequence(log.count + 1), 0, &[], out)
}

pub fn end_packet(log: Log, bytes: &[u8], out: &mut [u8]) -> Result<usize, Refusal>
    ensures { Settled (end_packet_reply log bytes.now (length out.old))
        out.old result out.new }
{
    if !lent_log::hangs_together(log, bytes) {
        return Err(Refusal::Broken);
    }
    if !log.ended {
        return Err(Refusal::Contradiction);
    }
    ufo_write::write_end(Sequence(log.count), out)
}
