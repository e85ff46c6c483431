// A walker keeps hold of a datagram and its place in it, and hands out one block after another.
#![tactic(auto)]

ghost use Rattle.std.specs.Prelude.{◌≡◌};
ghost use Rattle.blocks.specs.Blocks.{block_at};
ghost use Rattle.walker.specs.Walker.{moved};

use blocks::Block;
use wire::refusal::Refusal;

#[derive(Clone, Copy)]
pub struct Walker<'a> {
    pub datagram: &'a [u8],
    pub place: usize,
}

// A walker at a place: the blocks of a packet begin behind its header.
pub fn new<'a>(datagram: &'a [u8], place: usize) -> Walker<'a>
    ensures { (result.datagram ≡ datagram.entry) × (result.place ≡ place) }
{
    Walker { datagram, place }
}

// The block in front of the walker, which stays where it is.
pub fn step<'a>(w: Walker<'a>) -> Result<Block, Refusal>
    ensures { result ≡ block_at w.entry.datagram.now w.entry.place }
{
    blocks::next(w.datagram, w.place)
}

// Hands out the block in front of the walker, and moves the walker past it. At a refusal the walker stays where it is.
pub fn pull<'s, 'a>(w: &'s mut Walker<'a>) -> Result<Block, Refusal>
    ensures { (result ≡ block_at w.old.datagram.now w.old.place) × (w.new ≡ moved w.old) }
{
    let block = blocks::next(w.datagram, w.place)?;
    w.place = block.next;
    Ok(block)
}

// The block at a place, through a walker. A caller holds none.
pub fn block_at(s: &[u8], place: usize) -> Result<Block, Refusal>
    ensures { result ≡ block_at s.now place }
{
    step(new(s, place))
}
