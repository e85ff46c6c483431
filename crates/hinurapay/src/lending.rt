// The lending end: the log, and what it answers.
ghost use Rattle.std.specs.Prelude.{◌≡◌, length};
ghost use Rattle.flat.specs.Wrote.{FlatSettled};
ghost use Rattle.flat_log.specs.Lending.{FlatEntered, add_verdict, add_many_verdict, end_answer, answer_flat, heartbeat_flat};
ghost use Rattle.flat_log.specs.Lending.{end_packet_flat};

use flat::wrote::Wrote;
use flat_log::{FlatLog, FlatLogged};

pub fn hp_log_add(log: FlatLog, bytes: &mut [u8], message: &[u8]) -> FlatLogged
    ensures { FlatEntered (add_verdict log bytes.old message.now)
        log bytes.old result bytes.new }
{
    flat_log::add(log, bytes, message)
}

pub fn hp_log_add_many(log: FlatLog, bytes: &mut [u8], blocks: &[u8]) -> FlatLogged
    ensures { FlatEntered (add_many_verdict log bytes.old blocks.now)
        log bytes.old result bytes.new }
{
    flat_log::add_many(log, bytes, blocks)
}

pub fn hp_log_declare_end(log: FlatLog, bytes: &[u8]) -> FlatLogged
    ensures { result ≡ end_answer log bytes.now }
{
    flat_log::declare_end(log, bytes)
}

pub fn hp_log_answer(log: FlatLog, bytes: &[u8], first: u32, count: u16, out: &mut [u8]) -> Wrote
    ensures { FlatSettled (answer_flat log bytes.now first count (length out.old))
        out.old result out.new }
{
    flat_log::answer(log, bytes, first, count, out)
}

pub fn hp_log_heartbeat(log: FlatLog, bytes: &[u8], out: &mut [u8]) -> Wrote
    ensures { FlatSettled (heartbeat_flat log bytes.now (length out.old))
        out.old result out.new }
{
    flat_log::heartbeat(log, bytes, out)
}

pub fn hp_log_end_packet(log: FlatLog, bytes: &[u8], out: &mut [u8]) -> Wrote
    ensures { FlatSettled (end_packet_flat log bytes.now (length out.old))
        out.old result out.new }
{
    flat_log::end_packet(log, bytes, out)
}
