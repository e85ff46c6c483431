// A packet as a line: its only linefeed is its last byte.
ghost use Rattle.std.specs.Prelude.{◌≡◌, ◌-◌, length};
ghost use Rattle.wire.specs.Checks.{taken, checked};
ghost use Rattle.soup.specs.Read.{unbroken, line_checks, sized_checks};

use wire::refusal::Refusal;

// The most bytes of a packet, its linefeed among them: `line_limit`.
pub const LONGEST: usize = 4098;

// The most bytes of a payload.
pub const LONGEST_PAYLOAD: usize = 4096;

// No linefeed in s. Every byte is looked at, so that the loop has one way out and takes many bytes at a time.
pub fn is_unbroken(s: &[u8]) -> bool
    ensures { result ≡ unbroken s.now }
{
    let mut whole = true;
    for &b in s {
        whole &= b != b'\n';
    }
    whole
}

pub(crate) fn check(d: &[u8]) -> Result<(), Refusal>
    ensures { result ≡ checked (line_checks d.now) (taken tt) }
{
    if d.len() == 0 {
        return Err(Refusal::Framing);
    }
    let end = d.len() - 1;
    if d[end] != b'\n' {
        return Err(Refusal::Framing);
    }
    if is_unbroken(&d[..end]) {
        Ok(())
    } else {
        Err(Refusal::Linefeed)
    }
}

// The same where the type fixes the size.
pub(crate) fn check_sized(d: &[u8], size: usize) -> Result<(), Refusal>
    ensures { result ≡ checked (sized_checks size d.now) (taken tt) }
{
    if d.len() != size {
        return Err(Refusal::Framing);
    }
    check(d)
}

// How many bytes stand between the type and the linefeed.
pub(crate) fn payload_length(d: &[u8]) -> usize
    ensures { result ≡ length d.now - 2 }
{
    d.len().saturating_sub(2)
}
