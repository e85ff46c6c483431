// The bytes that a text spells.
ghost use Rattle.std.specs.Prelude.{◌≤◌, IfSome, length};

use crate::{hex, numbers, scan};

// A text has two runs at most, with one more piece behind the last.
const PIECES: usize = 3;

// The last byte that was put is there so many times, and so many bytes then stand there; nothing changes if there is no room for them.
fn repeat(out: &mut [u8], put: usize, times: usize) -> Option<usize>
    ensures { IfSome result (λ n. n ≤ length out.new) }
{
    let last = put.checked_sub(1)?;
    let b = *out.get(last)?;
    out.get_mut(last..)?.get_mut(..times)?.fill(b);
    Some(last + times)
}

// Puts what a text spells up to the end of its first run, and answers how many bytes that are, and the text behind it. `5A*1463` is
// a run: the byte 5A, 1,463 times.
fn first_run<'a>(text: &'a [u8], out: &mut [u8]) -> (usize, &'a [u8])
    ensures { result.0 ≤ length out.new }
{
    let (front, back) = scan::cut(text, b'*');
    let put = hex::decode(front, out);
    if back.is_empty() {
        return (put, back);
    }
    let (times, behind) = numbers::first(back);
    (repeat(out, put, times as usize).unwrap_or(0), behind)
}

// Puts what a text spells at the start of out, and answers those bytes.
pub fn bytes<'a>(text: &[u8], out: &'a mut [u8]) -> &'a [u8]
    ensures { length result.now ≤ length out.old }
{
    let mut count = 0;
    let mut rest = text;
    for _ in 0..PIECES {
        let (put, behind) = first_run(rest, &mut out[count..]);
        count += put;
        rest = behind;
    }
    &out[..count]
}
