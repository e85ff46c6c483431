// Big-endian fields of 2, 4 and 8 bytes, got from a place of a slice and put there.
ghost use Rattle.std.specs.Prelude.{◌≡◌, ◌+◌, ◌*◌, ◌^◌, ◌≤◌, ◌<◌, length, drop};
ghost use Rattle.std.proofs.lemmas.List.Edits.{sets};
ghost use Rattle.wire.specs.Fields.{be, bytes_of};

// The number that N bytes spell from a place on.
fn get<const N: usize>(s: &[u8], at: usize) -> u64
    requires { (N ≤ 8) × (at + N ≤ length s.now) }
    ensures { (result ≡ be N (drop at s.now)) × (result < 2 ^ (8 * N)) }
{
    let mut bytes = [0u8; 8];
    bytes[8 - N..].copy_from_slice(&s[at..at + N]);
    u64::from_be_bytes(bytes)
}

// Stores the N bytes that spell a number at a place.
fn put<const N: usize>(d: &mut [u8], at: usize, n: u64)
    requires { (N ≤ 8) × (at + N ≤ length d.old) × (n < 2 ^ (8 * N)) }
    ensures { d.new ≡ sets d.old at (bytes_of N n) }
{
    let bytes = n.to_be_bytes();
    d[at..at + N].copy_from_slice(&bytes[8 - N..]);
}

pub fn get2(s: &[u8], at: usize) -> u16
    requires { at + 2 ≤ length s.now }
    ensures { result ≡ be 2 (drop at s.now) }
{
    get::<2>(s, at) as u16
}

pub fn get4(s: &[u8], at: usize) -> u32
    requires { at + 4 ≤ length s.now }
    ensures { result ≡ be 4 (drop at s.now) }
{
    get::<4>(s, at) as u32
}

pub fn get8(s: &[u8], at: usize) -> u64
    requires { at + 8 ≤ length s.now }
    ensures { result ≡ be 8 (drop at s.now) }
{
    get::<8>(s, at)
}

pub fn put2(d: &mut [u8], at: usize, n: u16)
    requires { at + 2 ≤ length d.old }
    ensures { d.new ≡ sets d.old at (bytes_of 2 n) }
{
    put::<2>(d, at, n as u64);
}

pub fn put4(d: &mut [u8], at: usize, n: u32)
    requires { at + 4 ≤ length d.old }
    ensures { d.new ≡ sets d.old at (bytes_of 4 n) }
{
    put::<4>(d, at, n as u64);
}

pub fn put8(d: &mut [u8], at: usize, n: u64)
    requires { at + 8 ≤ length d.old }
    ensures { d.new ≡ sets d.old at (bytes_of 8 n) }
{
    put::<8>(d, at, n);
}
