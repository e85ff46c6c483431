// Whether a bitmap hangs together with N and T, and an area with its bitmap.
ghost use Rattle.std.specs.Prelude.{◌≡◌, ◌≤◌, ◌&&◌, length};
ghost use Rattle.held.specs.Slots.{area_size};
ghost use Rattle.held.specs.Hanging.{every, fits, in_place, sound};

use crate::slots;

// No full slot is that of the next message, and none stands for a message above the top. A function of its own, since laid into `take`
// this loop and that of `fits` took twice the instructions.
#[inline(never)]
pub fn is_in_place(held: u32, next: u64, top: u64) -> bool
    ensures { result ≡ in_place held next top }
{
    if held == 0 {
        return true;
    }
    let reach = top.saturating_sub(next);
    (0..32).all(|ahead| !slots::is_ahead_full(held, next, ahead) || (1 <= ahead && ahead <= reach))
}

fn fits(held: u32, area: &[u8]) -> bool
    requires { area_size ≤ length area.now }
    ensures { result ≡ every 32 (fits held area.now) }
{
    (0..32).all(|slot| !slots::is_full(held, slot) || slots::stated(area, slot) <= slots::LONGEST)
}

// There are 32 slots, and each full one states a length that it has room for.
pub fn is_sound(held: u32, area: &[u8]) -> bool
    ensures { result ≡ sound held area.now }
{
    if area.len() < slots::AREA {
        return false;
    }
    if held == 0 {
        return true;
    }
    fits(held, area)
}

// Both, where the area is at hand.
pub fn is_whole(held: u32, next: u64, top: u64, area: &[u8]) -> bool
    ensures { result ≡ (in_place held next top && sound held area.now) }
{
    if slots::AREA > area.len() {
        return false;
    }
    if held == 0 {
        return true;
    }
    is_in_place(held, next, top) & fits(held, area)
}
