// Timed answers, waiting and silence.
#![tactic(auto)]

use book_lines::line::Line;
use book_lines::numbers;
use book_page::{decimals, page};
use clock::patience::Patience;
use clock::sheet::Sheet;
use clock::{patience, sheet};
use std::io;
use wire::kinds::Tick;
use wire::refusal::Refusal;

// A sheet, and how long to wait between a floor of a millisecond and a ceiling of a minute.
fn tell(rt: &impl Print, sheet: Sheet) -> io::Result<()> {
    decimals::milliseconds(rt, "\n= mean ", sheet.mean)?;
    decimals::milliseconds(rt, ", spread ", sheet.spread)?;
    if let Ok(Some(length)) = patience::wait_of(sheet, Patience::Measured(1.0, 60_000.0)) {
        decimals::milliseconds(rt, ", wait ", length)?;
    }
    Ok(())
}

// A refused sample leaves the sheet as it was.
fn timed(rt: &impl Print, sheet: &mut Sheet, sample: f64) -> io::Result<()> {
    match sheet::time(*sheet, sample) {
        Err(why) => page::refused(rt, why),
        Ok(after) => {
            *sheet = after;
            tell(rt, after)
        }
    }
}

// Three samples, of two bytes each.
pub fn clock(rt: &impl Print, d: &[u8]) -> io::Result<()> {
    let Some(d) = d.get(..6) else {
        return Ok(());
    };
    let mut sheet = Sheet {
        mean: 0.0,
        spread: 0.0,
        timed: false,
    };
    let (samples, _) = d.as_chunks::<2>();
    for sample in samples {
        timed(rt, &mut sheet, f64::from(u16::from_be_bytes(*sample)))?;
    }
    Ok(())
}

// The rule that a place of a line names: `never`, `fixed` and a number, or `measured` and two.
pub fn rule(line: &Line<'_>, place: usize) -> Patience {
    let text = line.text;
    match line.letter(place) {
        Some(b'f') => Patience::Fixed(numbers::fraction(text, 0)),
        Some(b'm') => Patience::Measured(numbers::fraction(text, 0), numbers::fraction(text, 1)),
        _ => Patience::Never,
    }
}

// How many numbers a rule takes.
pub fn size(rule: Patience) -> usize {
    match rule {
        Patience::Never => 0,
        Patience::Fixed(_) => 1,
        Patience::Measured(_, _) => 2,
    }
}

// A sheet from number k of a line on. It is timed where the line has the word `spread`, of which the p is looked for.
pub fn sheet(line: &Line<'_>, k: usize) -> Sheet {
    let text = line.text;
    Sheet {
        mean: numbers::fraction(text, k),
        spread: numbers::fraction(text, k.saturating_add(1)),
        timed: text.contains(&b'p'),
    }
}

// How long to wait under a rule, with a sheet.
pub fn wait(rt: &impl Print, line: &Line<'_>) -> io::Result<()> {
    let rule = rule(line, 5);
    match patience::wait_of(sheet(line, size(rule)), rule) {
        Err(why) => page::refused(rt, why),
        Ok(None) => print!(rt; "\n= never"),
        Ok(Some(length)) => decimals::milliseconds(rt, "\n= wait ", length),
    }
}

// One sample, on a sheet.
pub fn gauge(rt: &impl Print, line: &Line<'_>) -> io::Result<()> {
    timed(rt, &mut sheet(line, 1), numbers::fraction(line.text, 0))
}

fn said(rt: &impl Print, label: &str, answer: Result<bool, Refusal>) -> io::Result<()> {
    match answer {
        Err(why) => print!(rt; "{label} refused {}", why.number()),
        Ok(true) => print!(rt; "{label} yes"),
        Ok(false) => print!(rt; "{label} no"),
    }
}

// Two readings of the clock: now, and when a packet was last heard or sent.
pub fn now(rt: &impl Print, line: &Line<'_>) -> io::Result<()> {
    let now = Tick(numbers::whole(line.text, 0));
    let last = Tick(numbers::whole(line.text, 1));
    said(rt, "\n= lost", silence::line_lost(now, last))?;
    said(rt, ", heartbeat due", silence::heartbeat_due(now, last))
}
