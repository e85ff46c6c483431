// What is missing: the ranges of the numbers from N to T that are not held. Numbers are counted from N here, since N+31 may not fit.
#![tactic(auto)]

ghost use Rattle.std.specs.Prelude.{◌≡◌, false, ◌+◌, ◌≤◌, length, slice_get};
ghost use Rattle.missing.specs.Missing.{is_held, missing};
ghost use Rattle.missing.specs.Runs.{LastOf, PastHeld, Follows};

use held::slots;
use wire::kinds::Sequence;

#[derive(Clone, Copy, Debug, PartialEq, Eq)]
pub struct Range {
    pub first: Sequence,
    pub last: Sequence,
}

fn is_held(held: u32, next: u64, ahead: u64) -> bool
    ensures { result ≡ is_held held next (next + ahead) }
{
    (1..=31).contains(&ahead) && slots::is_ahead_full(held, next, ahead)
}

// The last of the numbers that are missing one after another, up to `reach`.
fn last_of(held: u32, next: u64, reach: u64, first: u64) -> u64
    requires { (first ≤ reach) × (is_held held next (next + first) ≡ false) }
    ensures { LastOf (is_held held next) next reach first result }
{
    if held == 0 {
        return reach;
    }
    (first..reach.min(31))
        .find(|&last| is_held(held, next, last + 1))
        .unwrap_or(reach)
}

// The first number that is not held, from one on that may be.
fn past_held(held: u32, next: u64, ahead: u64) -> u64
    requires { ahead ≤ 32 }
    ensures { PastHeld (is_held held next) next ahead result }
{
    (ahead..32)
        .find(|&past| !is_held(held, next, past))
        .unwrap_or(32)
}

// Where the range begins that follows the one from `first` on, if there is one.
fn following(held: u32, next: u64, reach: u64, first: u64) -> Option<u64>
    requires { (first ≤ reach) × (is_held held next (next + first) ≡ false) }
    ensures { Follows (is_held held next) next reach first result }
{
    let last = last_of(held, next, reach, first);
    if last == reach {
        return None;
    }
    let begins = past_held(held, next, last + 1);
    (begins <= reach).then_some(begins)
}

pub fn count(held: u32, next: u64, top: u64) -> u8
    ensures { result ≡ length (missing held next top) }
{
    if top < next {
        return 0;
    }
    let mut ranges = 1;
    let mut first = 0;
    // From range to range: how many there are is what is asked.
    while let Some(begins) = following(held, next, top - next, first) {
        ranges += 1;
        first = begins;
    }
    ranges
}

// The range at a place, counted from 0.
pub fn at(held: u32, next: u64, top: u64, place: u64) -> Option<Range>
    ensures { result ≡ slice_get (missing held next top) place }
{
    let reach = top.checked_sub(next)?;
    let mut first = 0;
    for _ in 0..place {
        first = following(held, next, reach, first)?;
    }
    Some(Range {
        first: Sequence(next + first),
        last: Sequence(next + last_of(held, next, reach, first)),
    })
}
