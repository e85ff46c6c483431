// Names and users: packed from the bytes of a slice, and laid out there. Each has functions of its own, of a line or two: a trait over both
// would say each clause once more than they do, and be no shorter.
#![tactic(auto)]

ghost use Rattle.std.specs.Prelude.{◌≡◌, ◌+◌, ◌≤◌, length, drop};
ghost use Rattle.std.proofs.lemmas.List.Edits.{sets};
ghost use Rattle.names.specs.Names.{name_bytes, name_of, user_bytes, user_of};

use wire::fields;
use wire::kinds::{Name, User};

pub fn get_name(s: &[u8], at: usize) -> Name
    requires { at + 10 ≤ length s.now }
    ensures { result ≡ name_of (drop at s.now) }
{
    Name(fields::get2(s, at), fields::get8(s, at + 2))
}

pub fn put_name(d: &mut [u8], at: usize, n: Name)
    requires { at + 10 ≤ length d.old }
    ensures { d.new ≡ sets d.old at (name_bytes n) }
{
    fields::put2(d, at, n.0);
    fields::put8(d, at + 2, n.1);
}

pub fn get_user(s: &[u8], at: usize) -> User
    requires { at + 6 ≤ length s.now }
    ensures { result ≡ user_of (drop at s.now) }
{
    User(fields::get2(s, at), fields::get4(s, at + 2))
}

pub fn put_user(d: &mut [u8], at: usize, u: User)
    requires { at + 6 ≤ length d.old }
    ensures { d.new ≡ sets d.old at (user_bytes u) }
{
    fields::put2(d, at, u.0);
    fields::put4(d, at + 2, u.1);
}

pub fn name_bytes(n: Name) -> [u8; 10]
    ensures { result ≡ name_bytes n }
{
    let mut b = [0u8; 10];
    put_name(&mut b, 0, n);
    b
}

pub fn user_bytes(u: User) -> [u8; 6]
    ensures { result ≡ user_bytes u }
{
    let mut b = [0u8; 6];
    put_user(&mut b, 0, u);
    b
}
