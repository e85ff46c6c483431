// Holding a message that came early.
ghost use Rattle.std.specs.Prelude.{◌≡◌, ◌≤◌, ◌<◌, ◌*◌, length};
ghost use Rattle.std.proofs.lemmas.List.Edits.{sets};
ghost use Rattle.blocks.specs.Blocks.{frame};
ghost use Rattle.held.specs.Slots.{area_size, longest};
ghost use Rattle.held.specs.Holding.{hold_one, Held};

use crate::slots;
use wire::{fields, output};

fn lay(slot: u32, message: &[u8], area: &mut [u8])
    requires { (slot < 32) × (length message.now ≤ longest) × (area_size ≤ length area.old) }
    ensures { area.new ≡ sets area.old (1472 * slot) (frame message.now) }
{
    let at = slots::SLOT * slot as usize;
    let len = message.len();
    fields::put2(area, at, len as u16);
    output::copy(area, at + 2, message, 0, len);
}

// The bitmap afterwards. A message that is too far ahead, or finds its slot full or too small, is thrown away.
pub fn hold(held: u32, next: u64, number: u64, message: &[u8], area: &mut [u8]) -> u32
    ensures { Held (hold_one next (record { held = held; area = area.old }) number message.now)
        result area.new }
{
    if number <= next {
        return held;
    }
    if 31 < number - next {
        return held;
    }
    let slot = slots::slot_of(number);
    if slots::is_full(held, slot) {
        return held;
    }
    if slots::LONGEST < message.len() {
        return held;
    }
    if area.len() < slots::AREA {
        return held;
    }
    lay(slot, message, area);
    slots::fill(held, slot)
}
