// Decimal numbers in a text, one after another. `?` is not a number.
use std::num;

// A number without its sign: its digits, and the power of ten behind its point, if it has one.
#[derive(Clone, Copy)]
struct Decimal {
    digits: u64,
    power: Option<u64>,
}

fn is_part(b: u8) -> bool {
    matches!(b, b'0'..=b'9' | b'-' | b'.' | b'?')
}

// Ten times a number and a digit, as far as eight bytes hold them.
fn longer(n: u64, digit: u8) -> u64 {
    (n % 1844674407370955162 * 10).wrapping_add(u64::from(digit))
}

// A sign, and `?`, are passed over wherever they stand, and of several points the last one counts.
// Digit by digit, since the program must read each line as ever: `parse` refuses a number that is too long, and one with two points.
fn read(number: &[u8]) -> Decimal {
    let mut digits = 0;
    let mut power = None;
    for b in number {
        match *b {
            b'.' => power = Some(1),
            b'0'..=b'9' => {
                digits = longer(digits, *b - b'0');
                power = power.map(|p| longer(p, 0));
            }
            _ => {}
        }
    }
    Decimal { digits, power }
}

// Number k of a text, from 0, as it is written; nothing if there is none.
fn nth(text: &[u8], k: usize) -> &[u8] {
    text.split(|b| !is_part(*b))
        .filter(|number| !number.is_empty())
        .nth(k)
        .unwrap_or(&[])
}

// The first whole number, and what stands behind it.
pub(crate) fn first(text: &[u8]) -> (u64, &[u8]) {
    let start = text.iter().position(|b| is_part(*b));
    let (_, from) = text.split_at(start.unwrap_or(text.len()));
    let end = from.iter().position(|b| !is_part(*b));
    let (number, behind) = from.split_at(end.unwrap_or(from.len()));
    (read(number).digits, behind)
}

// A whole number; 0 if there is none.
pub fn whole(text: &[u8], k: usize) -> u64 {
    read(nth(text, k)).digits
}

// A number with a point or a sign; 0 if there is none.
pub fn fraction(text: &[u8], k: usize) -> f64 {
    let number = nth(text, k);
    if number.contains(&b'?') {
        return f64::NAN;
    }
    let n = read(number);
    let digits = num::nearest_u64_to_f64(n.digits);
    let size = match n.power {
        None => digits,
        Some(power) => digits / num::nearest_u64_to_f64(power),
    };
    if number.contains(&b'-') { -size } else { size }
}
