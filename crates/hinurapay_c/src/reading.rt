// Packets read, and blocks visited.
ghost use Rattle.std.specs.Prelude.{◌≡◌};
ghost use Rattle.flat.specs.Block.{next_block};
ghost use Rattle.flat_memx.specs.Reading.{memx_read};
ghost use Rattle.flat_soup.specs.Reading.{soup_read};
ghost use Rattle.flat_tcp.specs.Packets.{tcp_read};
ghost use Rattle.flat_ufo.specs.Reading.{down_read};
ghost use Rattle.flat_ufo_up.specs.Reading.{up_read, message_read};

use flat::block::FlatBlock;
use flat_packet::Read;
use flat_tcp::FlatTcpReading;
use hinurapay::reading;

#[unsafe(no_mangle)]
pub extern "C" fn hp_soup_read(packet: &[u8]) -> Read
    ensures { result ≡ soup_read packet.now }
{
    reading::hp_soup_read(packet)
}

#[unsafe(no_mangle)]
pub extern "C" fn hp_ufo_read_down(packet: &[u8]) -> Read
    ensures { result ≡ down_read packet.now }
{
    reading::hp_ufo_read_down(packet)
}

#[unsafe(no_mangle)]
pub extern "C" fn hp_ufo_read_up(packet: &[u8]) -> Read
    ensures { result ≡ up_read packet.now }
{
    reading::hp_ufo_read_up(packet)
}

#[unsafe(no_mangle)]
pub extern "C" fn hp_ufo_read_message(packet: &[u8], place: u64) -> Read
    ensures { result ≡ message_read packet.now place }
{
    reading::hp_ufo_read_message(packet, place)
}

#[unsafe(no_mangle)]
pub extern "C" fn hp_memx_read(packet: &[u8]) -> Read
    ensures { result ≡ memx_read packet.now }
{
    reading::hp_memx_read(packet)
}

#[unsafe(no_mangle)]
pub extern "C" fn hp_tcp_read(packet: &[u8]) -> FlatTcpReading
    ensures { result ≡ tcp_read packet.now }
{
    reading::hp_tcp_read(packet)
}

#[unsafe(no_mangle)]
pub extern "C" fn hp_next_block(bytes: &[u8], place: u64) -> FlatBlock
    ensures { result ≡ next_block bytes.now place }
{
    reading::hp_next_block(bytes, place)
}
