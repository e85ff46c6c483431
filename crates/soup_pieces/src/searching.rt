// The search for a linefeed: eight bytes at a time while none is among them, then one by one.
ghost use Rattle.std.specs.Prelude.{◌≡◌, true, ◌+◌, ◌≤◌, length};
ghost use Rattle.soup.specs.Read.{unbroken};
ghost use Rattle.soup_pieces.specs.Searching.{index_of, slice};

use soup::line::is_unbroken;

// A place behind the first eights without a linefeed.
fn behind_eights(s: &[u8], from: usize, to: usize) -> usize
    requires { (from ≤ to) × (to ≤ length s.now) }
    ensures { (from ≤ result) × (result ≤ to) × (unbroken (slice from result s.now) ≡ true) }
{
    // No `chunks_exact(8)`: with it, pieces of seven bytes took 1 % more instructions.
    let mut at = from;
    while 8 <= to - at {
        if !is_unbroken(&s[at..at + 8]) {
            return at;
        }
        at += 8;
    }
    at
}

// The first place from `from` on where the byte stands, or `to` where it stands nowhere before.
fn find(s: &[u8], from: usize, to: usize, byte: u8) -> usize
    requires { (from ≤ to) × (to ≤ length s.now) }
    ensures { (result ≡ from + index_of byte (slice from to s.now)) × (result ≤ to) }
{
    // No `for` and no `position`: over pieces of seven bytes they took 15 and 9 % more instructions.
    let mut at = from;
    while at < to {
        if s[at] == byte {
            return at;
        }
        at += 1;
    }
    at
}

// The first place from `from` on where a linefeed stands, or `to` where none stands before it.
pub(crate) fn linefeed(s: &[u8], from: usize, to: usize) -> usize
    requires { (from ≤ to) × (to ≤ length s.now) }
    ensures { (result ≡ from + index_of 10 (slice from to s.now)) × (result ≤ to) }
{
    let at = behind_eights(s, from, to);
    find(s, at, to, b'\n')
}
