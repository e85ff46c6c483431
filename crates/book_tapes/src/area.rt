// The area that is lent for held messages, and what was changed in it.
use book_lines::{entry, numbers, scan};
use book_page::page;
use held::slots;
use std::io;

// The room for it: 32 slots, and as much as one more behind them.
pub const ROOM: usize = 48576;

// Puts the bytes behind the colon where a slot begins.
pub(crate) fn lay(text: &[u8], area: &mut [u8; ROOM]) {
    let (_, said) = scan::cut(text, b':');
    let start = (numbers::whole(text, 0) % 33) as usize * slots::SLOT;
    entry::bytes(said, &mut area[start..]);
}

// The bitmap in which the slots of a line's messages are full, of which its number k is the first, and 32 are looked at. Behind the
// last one is 0, which is no message.
pub(crate) fn bitmap(text: &[u8], k: usize) -> u32 {
    let mut held = 0;
    for place in 0..32 {
        let number = numbers::whole(text, k.saturating_add(place));
        if number != 0 {
            held |= 1 << (number % 32) as u32;
        }
    }
    held
}

// The bytes of a slot from the first that was changed to the last, and where they begin.
fn change<'a>(before: &[u8], slot: &'a [u8]) -> Option<(usize, &'a [u8])> {
    let first = before.iter().zip(slot).position(|(was, is)| was != is)?;
    let last = before.iter().zip(slot).rposition(|(was, is)| was != is)?;
    Some((first, slot.get(first..=last)?))
}

// What was changed in each slot. Slot 32 is what lies behind the 32.
pub(crate) fn changes(rt: &impl Print, before: &[u8; ROOM], area: &[u8; ROOM]) -> io::Result<()> {
    let slots = before.chunks(slots::SLOT).zip(area.chunks(slots::SLOT));
    for (number, (before, slot)) in slots.enumerate() {
        if let Some((first, changed)) = change(before, slot) {
            print!(rt; "\n= slot {number} at {first}")?;
            page::raw(rt, ":", changed)?;
        }
    }
    Ok(())
}
