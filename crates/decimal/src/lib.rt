// A number on the wire: twenty characters, spaces and then digits.
#![tactic(auto)]

ghost use Rattle.std.specs.Prelude.{◌≡◌, ◌+◌, ◌-◌, ◌*◌, ◌/◌, ◌%◌, ◌^◌, ◌<◌, ◌≤◌, true, false, length, take, drop, slice_index};
ghost use Rattle.wire.specs.Checks.{◌at_most◌};
ghost use Rattle.text.specs.Text.{blank};
ghost use Rattle.decimal.specs.Decimal.{digit, digits, spelt, written, fitted, number_of};

// The power of ten at each place, counted from the right.
const POWERS: [u64; 20] = [
    1,
    10,
    100,
    1000,
    10000,
    100000,
    1000000,
    10000000,
    100000000,
    1000000000,
    10000000000,
    100000000000,
    1000000000000,
    10000000000000,
    100000000000000,
    1000000000000000,
    10000000000000000,
    100000000000000000,
    1000000000000000000,
    10000000000000000000,
];

// Why characters are no number: they aren't of that form, they are twenty spaces, or they come to more than 2^64-1.
// Spaces have a case of their own, so that no caller takes them for 0.
#[derive(Clone, Copy, Debug, PartialEq, Eq)]
pub enum Fault {
    Misshapen,
    Blank,
    Over,
}

// What a character counts for: a digit its value, anything else more than 9.
fn figure(b: u8) -> u64
    ensures { (digit b ≡ result at_most 9) × (result ≤ 9 → result ≡ b - 48) }
{
    std::num::wrapping_sub_u64(b as u64, 48)
}

// The digits that end a field, nineteen of them at most: how many there are, and what they come to.
#[derive(Clone, Copy)]
struct Tail {
    count: usize,
    value: u64,
}

// Each digit times the power of its place, from the last one to the left, up to the first character that is none. Nineteen
// can't come to over 2^64-1. The table is taken before the loop: inside it would be laid out anew at each digit.
fn tail_of(s: &[u8]) -> Tail
    requires { length s.now ≡ 20 }
    ensures { (result.count ≤ 19) × (digits (drop (20 - result.count) s.now) ≡ true)
        × (result.value ≡ spelt (drop (20 - result.count) s.now))
        × (result.count < 19 → digit (slice_index s.now (19 - result.count)) ≡ false) }
{
    let powers = POWERS;
    let mut value: u64 = 0;
    for k in 0..19 {
        let d = figure(s[19 - k]);
        if 9 < d {
            return Tail { count: k, value };
        }
        value += d * powers[k];
    }
    Tail { count: 19, value }
}

// The digit d in front of nineteen that come to n: only here can the sum be over 2^64-1.
fn twenty(d: u64, n: u64) -> Result<u64, Fault>
    requires { n < 10 ^ 19 }
    ensures { result ≡ fitted (d * 10 ^ 19 + n) }
{
    if d == 0 {
        return Ok(n);
    }
    if (d == 1) & (n <= u64::MAX - POWERS[19]) {
        Ok(POWERS[19] + n)
    } else {
        Err(Fault::Over)
    }
}

// Nothing but spaces. Every byte is looked at, so that the compiler makes one test of the eight or four that it is asked for.
fn are_spaces(s: &[u8]) -> bool
    ensures { result ≡ blank s.now }
{
    let mut all = true;
    for &b in s {
        all &= b == b' ';
    }
    all
}

// The first n of twenty characters are spaces: four, then eight and eight of them, the last ones up to place n.
fn begins_blank(s: &[u8], n: usize) -> bool
    requires { (length s.now ≡ 20) × (n ≤ 20) }
    ensures { result ≡ blank (take n s.now) }
{
    if n < 4 {
        return are_spaces(&s[..n]);
    }
    if !are_spaces(&s[..4]) {
        return false;
    }
    if n < 8 {
        return are_spaces(&s[n - 4..n]);
    }
    if n < 12 {
        return are_spaces(&s[n - 8..n]);
    }
    if !are_spaces(&s[4..12]) {
        return false;
    }
    are_spaces(&s[n - 8..n])
}

// Any characters, read. Where there are no digits their sum is 0 too: that is told as blank, never as a number.
pub fn read(s: &[u8]) -> Result<u64, Fault>
    ensures { result ≡ number_of s.now }
{
    if s.len() != 20 {
        return Err(Fault::Misshapen);
    }
    let tail = tail_of(s);
    let first = figure(s[0]);
    if (tail.count == 19) & (first <= 9) {
        return twenty(first, tail.value);
    }
    let from = 20 - tail.count;
    if !begins_blank(s, from) {
        return Err(Fault::Misshapen);
    }
    if tail.count == 0 {
        return Err(Fault::Blank);
    }
    Ok(tail.value)
}

// The last digit of n, whose tenth is given.
fn last_digit(n: u64, tenth: u64) -> u8
    requires { tenth ≡ n / 10 }
    ensures { result ≡ 48 + n % 10 }
{
    b'0' + (n - tenth * 10) as u8
}

// The twenty characters that spell n, from the last one to the left; those that n doesn't reach stay spaces. Ten is a
// constant, so the compiler divides by it with a multiplication.
pub fn characters(n: u64) -> [u8; 20]
    ensures { result ≡ written n }
{
    let mut s = [b' '; 20];
    let mut rest = n / 10;
    s[19] = last_digit(n, rest);
    // No `for` over the places: it took a fifth more instructions, since it asks at each digit too if a place is left.
    let mut i = 19;
    while rest != 0 {
        let tenth = rest / 10;
        i -= 1;
        s[i] = last_digit(rest, tenth);
        rest = tenth;
    }
    s
}
