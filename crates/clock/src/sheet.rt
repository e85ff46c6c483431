// The line sheet: how long answers take, in fractional milliseconds, after RFC 6298.
ghost use Rattle.std.specs.Prelude.{◌≡◌};
ghost use Rattle.clock.specs.Sheet.{sound, apart, smoothed, timing};

use crate::range::is_lawful;
use wire::refusal::Refusal;

// The scope names this form, and the C interface hands an untimed sheet's numbers through: so a flag, and no Option.
#[derive(Clone, Copy)]
pub struct Sheet {
    pub mean: f64,
    pub spread: f64,
    // Whether any answer was timed. If none was, the numbers above mean nothing.
    pub timed: bool,
}

pub fn is_sound(sheet: Sheet) -> bool
    ensures { result ≡ sound sheet }
{
    !sheet.timed || is_lawful(sheet.mean) && is_lawful(sheet.spread)
}

// By comparison and negation, as the scope has it.
fn distance(mean: f64, sample: f64) -> f64
    ensures { result ≡ apart mean sample }
{
    let d = mean - sample;
    if d < 0.0 { -d } else { d }
}

// The spread is measured from the old mean.
fn smooth(sheet: Sheet, sample: f64) -> Sheet
    ensures { result ≡ smoothed sheet sample }
{
    if sheet.timed {
        let spread = 0.75 * sheet.spread + 0.25 * distance(sheet.mean, sample);
        let mean = 0.875 * sheet.mean + 0.125 * sample;
        Sheet {
            mean,
            spread,
            timed: true,
        }
    } else {
        Sheet {
            mean: sample,
            spread: sample / 2.0,
            timed: true,
        }
    }
}

// The sheet after an answer that took so many milliseconds.
pub fn time(sheet: Sheet, sample: f64) -> Result<Sheet, Refusal>
    ensures { result ≡ timing sheet sample }
{
    if !is_sound(sheet) {
        return Err(Refusal::Broken);
    }
    if !is_lawful(sample) {
        return Err(Refusal::Range);
    }
    Ok(smooth(sheet, sample))
}
