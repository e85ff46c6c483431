// Releasing held messages: one goes out as soon as it is next.
ghost use Rattle.std.specs.Prelude.{◌≡◌, ◌+◌, ◌≤◌, length};
ghost use Rattle.std.proofs.lemmas.List.Edits.{sets};
ghost use Rattle.blocks.specs.Blocks.{frames};
ghost use Rattle.held.specs.Releasing.{run, held_from, Fitting, releasing, Settled};

use crate::hanging::is_sound;
use crate::slots;
use wire::output;
use wire::refusal::Refusal;

// What went out: so many messages, in so many bytes.
#[derive(Clone, Copy, Debug, PartialEq, Eq)]
pub struct Released {
    pub messages: u32,
    pub bytes: usize,
}

// How many messages are held one after another, from a number on.
fn run(held: u32, number: u64) -> u32
    ensures { (result ≡ run 31 held number) × (result ≤ 31) }
{
    (0..31)
        .find(|&ahead| !slots::is_ahead_full(held, number, ahead as u64))
        .unwrap_or(31)
}

// The bytes of so many blocks.
fn size(number: u64, messages: u32, area: &[u8]) -> usize
    requires { Fitting area.now number messages }
    ensures { result ≡ length (frames (held_from messages area.now number)) }
{
    let mut bytes = 0;
    for ahead in 0..messages as u64 {
        bytes += 2 + slots::stated(area, slots::slot_ahead(number, ahead));
    }
    bytes
}

fn lay(number: u64, messages: u32, area: &[u8], out: &mut [u8], at: usize)
    requires { Fitting area.now number messages × (at + length (frames (held_from messages area.now number)) ≤ length out.old) }
    ensures { out.new ≡ sets out.old at (frames (held_from messages area.now number)) }
{
    let mut to = at;
    for ahead in 0..messages as u64 {
        let slot = slots::slot_ahead(number, ahead);
        let bytes = 2 + slots::stated(area, slot);
        output::copy(out, to, area, slots::SLOT * slot as usize, bytes);
        to += bytes;
    }
}

// The blocks of the messages held from a number on, laid into the output from a place on.
pub fn release(
    held: u32,
    number: u64,
    area: &[u8],
    out: &mut [u8],
    at: usize,
) -> Result<Released, Refusal>
    ensures { Settled (releasing held area.now number at (length out.old))
        at out.old result out.new }
{
    if !is_sound(held, area) {
        return Err(Refusal::Broken);
    }
    if out.len() < at {
        return Err(Refusal::Room);
    }
    if held == 0 {
        return Ok(Released {
            messages: 0,
            bytes: 0,
        });
    }
    let messages = run(held, number);
    let bytes = size(number, messages, area);
    if out.len() - at < bytes {
        return Err(Refusal::Room);
    }
    lay(number, messages, area, out, at);
    Ok(Released { messages, bytes })
}
