// Text fields: blank, padded on the right, padded on the left.
#![tactic(auto)]

ghost use Rattle.std.specs.Prelude.{◌≡◌};
ghost use Rattle.names.specs.Names.{name_bytes, user_bytes};
ghost use Rattle.text.specs.Text.{letter_or_digit, blank, text_then_spaces, spaces_then_text};

use wire::kinds::{Name, User};

fn is_letter_or_digit(b: u8) -> bool
    ensures { result ≡ letter_or_digit b }
{
    b.is_ascii_alphanumeric()
}

pub fn is_blank(t: &[u8]) -> bool
    ensures { result ≡ blank t.now }
{
    t.iter().all(|&b| b == b' ')
}

// By the place where the text ends: a chain through `skip_while` takes up to twice as long, here and below.
pub fn is_text_then_spaces(t: &[u8]) -> bool
    ensures { result ≡ text_then_spaces t.now }
{
    let end = t
        .iter()
        .position(|&b| !is_letter_or_digit(b))
        .unwrap_or(t.len());
    is_blank(&t[end..])
}

pub fn is_spaces_then_text(t: &[u8]) -> bool
    ensures { result ≡ spaces_then_text t.now }
{
    let start = t.iter().position(|&b| b != b' ').unwrap_or(t.len());
    t[start..].iter().all(|&b| is_letter_or_digit(b))
}

// Names and users are asked about by one call each: a trait over both would make none of these shorter.
pub fn is_blank_name(n: Name) -> bool
    ensures { result ≡ blank (name_bytes n) }
{
    is_blank(&names::name_bytes(n))
}

pub fn is_name_then_spaces(n: Name) -> bool
    ensures { result ≡ text_then_spaces (name_bytes n) }
{
    is_text_then_spaces(&names::name_bytes(n))
}

// No caller yet: SoupTCP names a session so, padded on the left, and a record of one is to be opened by that name.
pub fn is_spaces_then_name(n: Name) -> bool
    ensures { result ≡ spaces_then_text (name_bytes n) }
{
    is_spaces_then_text(&names::name_bytes(n))
}

pub fn is_blank_user(u: User) -> bool
    ensures { result ≡ blank (user_bytes u) }
{
    is_blank(&names::user_bytes(u))
}

pub fn is_user_then_spaces(u: User) -> bool
    ensures { result ≡ text_then_spaces (user_bytes u) }
{
    is_text_then_spaces(&names::user_bytes(u))
}
