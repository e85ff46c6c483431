// Ten bytes as a name, and six as a user.
ghost use Rattle.std.specs.Prelude.{◌≡◌};
ghost use Rattle.names.specs.Names.{name_of, user_of, name_bytes, user_bytes};

use wire::kinds::{Name, User};

pub fn name_of(bytes: &[u8; 10]) -> Name
    ensures { (result ≡ name_of bytes.now) × (name_bytes result ≡ bytes.now) }
{
    names::get_name(bytes, 0)
}

pub fn user_of(bytes: &[u8; 6]) -> User
    ensures { (result ≡ user_of bytes.now) × (user_bytes result ≡ bytes.now) }
{
    names::get_user(bytes, 0)
}
