// A yes or no as a byte: 1 or 0.
ghost use Rattle.std.specs.Prelude.{◌≡◌};
ghost use Rattle.flat.specs.Flag.{is_flag, byte_of};

pub fn is_flag(byte: u8) -> bool
    ensures { result ≡ is_flag byte }
{
    byte <= 1
}

pub fn byte_of(yes: bool) -> u8
    ensures { result ≡ byte_of yes }
{
    u8::from(yes)
}
