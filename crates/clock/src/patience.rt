// Patience: how long to wait for an answer before the same is asked again.
ghost use Rattle.std.specs.Prelude.{◌≡◌};
ghost use Rattle.clock.specs.Patience.{in_range, measured, clamped, waiting, wait_over};

use crate::range::{MINUTE, is_between};
use crate::sheet::{Sheet, is_sound};
use wire::refusal::Refusal;

const DAY: f64 = 86_400_000.0;

// The rule, in milliseconds.
#[derive(Clone, Copy)]
pub enum Patience {
    // Never ask twice.
    Never,
    Fixed(f64),
    // The floor and the ceiling of what the sheet gives.
    Measured(f64, f64),
}

fn is_in_range(rule: Patience) -> bool
    ensures { result ≡ in_range rule }
{
    match rule {
        Patience::Never => true,
        Patience::Fixed(wait) => (0.0 < wait) & (wait <= MINUTE),
        Patience::Measured(floor, ceiling) => (0.0 < floor) & is_between(floor, ceiling, MINUTE),
    }
}

fn measure(sheet: Sheet) -> f64
    ensures { result ≡ measured sheet }
{
    if sheet.timed {
        sheet.mean + 4.0 * sheet.spread
    } else {
        1000.0
    }
}

fn clamp(floor: f64, ceiling: f64, wait: f64) -> f64
    ensures { result ≡ clamped floor ceiling wait }
{
    if wait < floor {
        floor
    } else if ceiling < wait {
        ceiling
    } else {
        wait
    }
}

// How long to wait under the rule, if it ever asks again.
pub fn wait_of(sheet: Sheet, rule: Patience) -> Result<Option<f64>, Refusal>
    ensures { result ≡ waiting sheet rule }
{
    if !is_sound(sheet) {
        return Err(Refusal::Broken);
    }
    if !is_in_range(rule) {
        return Err(Refusal::Range);
    }
    match rule {
        Patience::Never => Ok(None),
        Patience::Fixed(wait) => Ok(Some(wait)),
        Patience::Measured(floor, ceiling) => Ok(Some(clamp(floor, ceiling, measure(sheet)))),
    }
}

// Whether the wait is over, so many milliseconds after the question.
pub fn wait_over(sheet: Sheet, rule: Patience, elapsed: f64) -> Result<bool, Refusal>
    ensures { result ≡ wait_over sheet rule elapsed }
{
    let wait = wait_of(sheet, rule)?;
    if !is_between(0.0, elapsed, DAY) {
        return Err(Refusal::Range);
    }
    Ok(wait.is_some_and(|length| length <= elapsed))
}
