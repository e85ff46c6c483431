// The slots, and the bitmap of those that are full. specs/Slots has a picture of their bytes.
ghost use Rattle.std.specs.Prelude.{◌≡◌, ◌+◌, ◌≤◌, ◌<◌, length};
ghost use Rattle.blocks.specs.Blocks.{stated};
ghost use Rattle.held.specs.Slots.{area_size, slot_of, slot_at, is_full, full, filled, freed, freed_from};

use wire::fields;

// There are 32 slots of this many bytes.
pub const SLOT: usize = 1472;

pub const AREA: usize = 47104;

// The longest message that a slot has room for, behind its two length bytes.
pub const LONGEST: usize = 1470;

pub(crate) fn slot_of(number: u64) -> u32
    ensures { (result ≡ slot_of number) × (result < 32) }
{
    (number % 32) as u32
}

// The slot of the message so many after another. Their sum may not fit a number; their slots' does.
pub(crate) fn slot_ahead(number: u64, ahead: u64) -> u32
    ensures { (result ≡ slot_of (number + ahead)) × (result < 32) }
{
    slot_of(number % 32 + ahead % 32)
}

// What the first two bytes of a slot state.
pub(crate) fn stated(area: &[u8], slot: u32) -> usize
    requires { (slot < 32) × (area_size ≤ length area.now) }
    ensures { result ≡ stated (slot_at area.now slot) }
{
    fields::get2(area, SLOT * slot as usize) as usize
}

pub(crate) fn is_full(held: u32, slot: u32) -> bool
    requires { slot < 32 }
    ensures { result ≡ is_full held slot }
{
    (held >> slot) % 2 == 1
}

pub(crate) fn fill(held: u32, slot: u32) -> u32
    requires { slot < 32 }
    ensures { result ≡ filled held slot }
{
    if is_full(held, slot) {
        held
    } else {
        held + (1 << slot)
    }
}

pub(crate) fn free(held: u32, slot: u32) -> u32
    requires { slot < 32 }
    ensures { result ≡ freed held slot }
{
    if is_full(held, slot) {
        held - (1 << slot)
    } else {
        held
    }
}

// Whether the slot of the message so many after the next one is full.
pub fn is_ahead_full(held: u32, next: u64, ahead: u64) -> bool
    ensures { result ≡ full held (next + ahead) }
{
    is_full(held, slot_ahead(next, ahead))
}

// The slots of `count` messages fall free, from a number on.
pub fn free_from(held: u32, number: u64, count: u64) -> u32
    ensures { result ≡ freed_from count held number }
{
    let mut kept = held;
    for ahead in 0..count {
        if kept == 0 {
            return 0;
        }
        kept = free(kept, slot_ahead(number, ahead));
    }
    kept
}
