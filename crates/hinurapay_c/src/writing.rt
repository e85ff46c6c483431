// Packets written.
ghost use Rattle.std.specs.Prelude.{length};
ghost use Rattle.flat.specs.Wrote.{FlatSettled};
ghost use Rattle.flat_compose.specs.Adding.{add_flat};
ghost use Rattle.flat_memx.specs.Writing.{memx_reply};
ghost use Rattle.flat_soup.specs.Writing.{soup_reply};
ghost use Rattle.flat_tcp.specs.Packets.{tcp_reply};
ghost use Rattle.flat_ufo.specs.Writing.{down_reply};
ghost use Rattle.flat_ufo_up.specs.Writing.{message_reply};

use flat::wrote::Wrote;
use flat_packet::Packet;
use flat_tcp::FlatTcp;
use hinurapay::writing;

#[unsafe(no_mangle)]
pub extern "C" fn hp_soup_write(fields: Packet, body: &[u8], out: &mut [u8]) -> Wrote
    ensures { FlatSettled (soup_reply fields body.now (length out.old))
        out.old result out.new }
{
    writing::hp_soup_write(fields, body, out)
}

#[unsafe(no_mangle)]
pub extern "C" fn hp_ufo_write_down(fields: Packet, body: &[u8], out: &mut [u8]) -> Wrote
    ensures { FlatSettled (down_reply fields body.now (length out.old))
        out.old result out.new }
{
    writing::hp_ufo_write_down(fields, body, out)
}

#[unsafe(no_mangle)]
pub extern "C" fn hp_ufo_write_message(fields: Packet, body: &[u8], out: &mut [u8]) -> Wrote
    ensures { FlatSettled (message_reply fields body.now (length out.old))
        out.old result out.new }
{
    writing::hp_ufo_write_message(fields, body, out)
}

#[unsafe(no_mangle)]
pub extern "C" fn hp_ufo_add_message(
    fields: Packet,
    body: &[u8],
    out: &mut [u8],
    used: u64,
) -> Wrote
    ensures { FlatSettled (add_flat fields body.now out.old used)
        out.old result out.new }
{
    writing::hp_ufo_add_message(fields, body, out, used)
}

#[unsafe(no_mangle)]
pub extern "C" fn hp_memx_write(fields: Packet, extra: &[u8], body: &[u8], out: &mut [u8]) -> Wrote
    ensures { FlatSettled (memx_reply fields extra.now body.now (length out.old))
        out.old result out.new }
{
    writing::hp_memx_write(fields, extra, body, out)
}

#[unsafe(no_mangle)]
pub extern "C" fn hp_tcp_write(fields: FlatTcp, body: &[u8], out: &mut [u8]) -> Wrote
    ensures { FlatSettled (tcp_reply fields body.now (length out.old))
        out.old result out.new }
{
    writing::hp_tcp_write(fields, body, out)
}
