// The data block at a place.
ghost use Rattle.std.specs.Prelude.{◌≡◌};
ghost use Rattle.flat.specs.Block.{flat_block, next_block};

use blocks::Block;
use wire::refusal::Refusal;

#[repr(C)]
#[derive(Clone, Copy)]
pub struct FlatBlock {
    pub refusal: u64,
    pub start: u64,
    pub length: u64,
    pub next: u64,
}

fn flat_block(block: Result<Block, Refusal>) -> FlatBlock
    ensures { result ≡ flat_block block }
{
    match block {
        Err(why) => FlatBlock {
            refusal: why.number() as u64,
            start: 0,
            length: 0,
            next: 0,
        },
        Ok(block) => FlatBlock {
            refusal: 0,
            start: block.start as u64,
            length: block.length as u64,
            next: block.next as u64,
        },
    }
}

pub fn next_block(bytes: &[u8], place: u64) -> FlatBlock
    ensures { result ≡ next_block bytes.now place }
{
    flat_block(walker::block_at(bytes, place as usize))
}
