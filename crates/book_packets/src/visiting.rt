// Blocks, visited at a place of a datagram.
use blocks::Block;
use book_page::page;
use std::io;

pub fn visit(rt: &impl Print, d: &[u8], place: usize) -> io::Result<()> {
    match walker::block_at(d, place) {
        Err(why) => page::refused(rt, why),
        Ok(
            Block {
                start,
                length,
                next,
            },
        ) => print!(rt; "\n= starts at {start}, length {length}, next at {next}"),
    }
}
