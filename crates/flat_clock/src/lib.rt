// Timing answers, waiting for them, and silence.
#![tactic(auto)]

ghost use Rattle.std.specs.Prelude.{◌≡◌};
ghost use Rattle.flat_clock.specs.Waiting.{sheet_of, known_sheet, flat_sheet, flat_timed, rule_of, flat_wait, flat_said};
ghost use Rattle.flat_clock.specs.Waiting.{time_answer, wait_answer, line_lost, heartbeat_due};

use clock::patience::Patience;
use clock::sheet::Sheet;
use clock::{patience, sheet};
use flat::flag;
use wire::kinds::Tick;
use wire::refusal::Refusal;

#[repr(C)]
#[derive(Clone, Copy)]
pub struct FlatSheet {
    pub mean: f64,
    pub spread: f64,
    pub timed: u8,
}

// The rule: 0 never, 1 fixed, 2 measured between the first and the second.
#[repr(C)]
#[derive(Clone, Copy)]
pub struct FlatPatience {
    pub rule: u8,
    pub first: f64,
    pub second: f64,
}

#[repr(C)]
#[derive(Clone, Copy)]
pub struct FlatTimed {
    pub refusal: u64,
    pub sheet: FlatSheet,
}

#[repr(C)]
#[derive(Clone, Copy)]
pub struct FlatWait {
    pub refusal: u64,
    pub waits: u8,
    pub milliseconds: f64,
}

#[repr(C)]
#[derive(Clone, Copy)]
pub struct FlatSaid {
    pub refusal: u64,
    pub yes: u8,
}

pub fn sheet_of(given: FlatSheet) -> Sheet
    ensures { result ≡ sheet_of given }
{
    Sheet {
        mean: given.mean,
        spread: given.spread,
        timed: given.timed == 1,
    }
}

// The sheet that a flat one is, if its flag is one.
pub fn known_sheet(given: FlatSheet) -> Result<Sheet, Refusal>
    ensures { result ≡ known_sheet given }
{
    if flag::is_flag(given.timed) {
        Ok(sheet_of(given))
    } else {
        Err(Refusal::Broken)
    }
}

fn flat_sheet(sheet: Sheet) -> FlatSheet
    ensures { result ≡ flat_sheet sheet }
{
    FlatSheet {
        mean: sheet.mean,
        spread: sheet.spread,
        timed: flag::byte_of(sheet.timed),
    }
}

fn flat_timed(given: FlatSheet, answer: Result<Sheet, Refusal>) -> FlatTimed
    ensures { result ≡ flat_timed given answer }
{
    match answer {
        Err(why) => FlatTimed {
            refusal: why.number() as u64,
            sheet: given,
        },
        Ok(after) => FlatTimed {
            refusal: 0,
            sheet: flat_sheet(after),
        },
    }
}

// A rule that the desk doesn't know is handed on as a wait of nothing, so that it is refused as one out of range is, after a broken sheet.
pub fn rule_of(given: FlatPatience) -> Patience
    ensures { result ≡ rule_of given }
{
    match given.rule {
        0 => Patience::Never,
        1 => Patience::Fixed(given.first),
        2 => Patience::Measured(given.first, given.second),
        _ => Patience::Fixed(0.0),
    }
}

fn flat_wait(wait: Result<Option<f64>, Refusal>) -> FlatWait
    ensures { result ≡ flat_wait wait }
{
    match wait {
        Err(why) => FlatWait {
            refusal: why.number() as u64,
            waits: 0,
            milliseconds: 0.0,
        },
        Ok(None) => FlatWait {
            refusal: 0,
            waits: 0,
            milliseconds: 0.0,
        },
        Ok(Some(milliseconds)) => FlatWait {
            refusal: 0,
            waits: 1,
            milliseconds,
        },
    }
}

fn flat_said(said: Result<bool, Refusal>) -> FlatSaid
    ensures { result ≡ flat_said said }
{
    match said {
        Err(why) => FlatSaid {
            refusal: why.number() as u64,
            yes: 0,
        },
        Ok(yes) => FlatSaid {
            refusal: 0,
            yes: flag::byte_of(yes),
        },
    }
}

pub fn time(given: FlatSheet, sample: f64) -> FlatTimed
    ensures { result ≡ time_answer given sample }
{
    flat_timed(
        given,
        known_sheet(given).and_then(|sheet| sheet::time(sheet, sample)),
    )
}

pub fn wait_of(given: FlatSheet, patience: FlatPatience) -> FlatWait
    ensures { result ≡ wait_answer given patience }
{
    flat_wait(known_sheet(given).and_then(|sheet| patience::wait_of(sheet, rule_of(patience))))
}

pub fn line_lost(now: u64, heard: u64) -> FlatSaid
    ensures { result ≡ line_lost now heard }
{
    flat_said(silence::line_lost(Tick(now), Tick(heard)))
}

pub fn heartbeat_due(now: u64, sent: u64) -> FlatSaid
    ensures { result ≡ heartbeat_due now sent }
{
    flat_said(silence::heartbeat_due(Tick(now), Tick(sent)))
}
