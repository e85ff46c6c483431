// Milliseconds, written with three decimals.
use std::{io, num};

// A number in whole units, so many to the millisecond, if it fits.
fn units(x: f64, scale: f64) -> Option<u64> {
    let y = x * scale;
    if y > -1.0 && y < 18446744073709551616.0 {
        return Some(num::truncating_f64_to_u64(y));
    }
    None
}

fn thousandths(rt: &impl Print, n: u64) -> io::Result<()> {
    let whole = n / 1000;
    let rest = n % 1000;
    print!(rt; "{whole}.{rest:03}")
}

// Two bytes in front of the point and six behind it, in hexadecimal.
fn binary(rt: &impl Print, n: u64) -> io::Result<()> {
    let whole = n / 281474976710656;
    let rest = n % 281474976710656;
    print!(rt; "{whole:04X}.{rest:012X}")
}

// What is no whole number of thousandths is told to the last bit, from 16 milliseconds on.
pub fn milliseconds(rt: &impl Print, label: &str, x: f64) -> io::Result<()> {
    print!(rt; "{label}")?;
    match units(x, 1000.0) {
        Some(n) if num::nearest_u64_to_f64(n) / 1000.0 == x => thousandths(rt, n),
        _ => binary(rt, units(x, 281474976710656.0).unwrap_or(0)),
    }
}
