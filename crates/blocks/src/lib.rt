// Message blocks: a length of two bytes and as many bytes of data, one after the other.
#![tactic(auto)]

ghost use Rattle.std.specs.Prelude.{◌≡◌};
ghost use Rattle.blocks.specs.Blocks.{block_at, fills, upstream, count_of, place_after};

use wire::fields;
use wire::refusal::Refusal;

// The block that stands at a place: where its data begins, how long that is, and the place after it.
#[derive(Clone, Copy, Debug, PartialEq, Eq)]
pub struct Block {
    pub start: usize,
    pub length: usize,
    pub next: usize,
}

pub fn next(s: &[u8], place: usize) -> Result<Block, Refusal>
    ensures { result ≡ block_at s.now place }
{
    if s.len() < 2 {
        return Err(Refusal::Framing);
    }
    if s.len() - 2 < place {
        return Err(Refusal::Framing);
    }
    let length = fields::get2(s, place) as usize;
    let start = place + 2;
    if s.len() - start < length {
        return Err(Refusal::Framing);
    }
    Ok(Block {
        start,
        length,
        next: start + length,
    })
}

// How many blocks an upstream packet has: one or more, none of them empty, to the very end.
pub fn count_upstream(s: &[u8]) -> Result<usize, Refusal>
    ensures { result ≡ count_of (upstream s.now) }
{
    let mut at = 0;
    let mut count = 0;
    // From block to block: how many turns there are is what is asked.
    while at < s.len() {
        let block = next(s, at)?;
        if block.length == 0 {
            return Err(Refusal::Framing);
        }
        at = block.next;
        count += 1;
    }
    if count == 0 {
        return Err(Refusal::Framing);
    }
    Ok(count)
}

// The place after k blocks.
pub fn skip(s: &[u8], place: usize, k: u64) -> Result<usize, Refusal>
    ensures { result ≡ place_after k s.now place }
{
    let mut at = place;
    for _ in 0..k {
        at = next(s, at)?.next;
    }
    if s.len() < at {
        return Err(Refusal::Framing);
    }
    Ok(at)
}

// Whether exactly `count` blocks stand from a place to the very end.
pub fn exactly(s: &[u8], place: usize, count: u16) -> bool
    ensures { result ≡ fills s.now place count }
{
    skip(s, place, count as u64) == Ok(s.len())
}
