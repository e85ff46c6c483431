// Milliseconds between two bounds.
ghost use Rattle.std.specs.Prelude.{◌≡◌};
ghost use Rattle.clock.specs.Milliseconds.{between, lawful};

pub(crate) const MINUTE: f64 = 60_000.0;

// What is not a number lies between no bounds.
pub(crate) fn is_between(low: f64, x: f64, high: f64) -> bool
    ensures { result ≡ between low x high }
{
    low <= x && x <= high
}

pub(crate) fn is_lawful(x: f64) -> bool
    ensures { result ≡ lawful x }
{
    is_between(0.0, x, MINUTE)
}
