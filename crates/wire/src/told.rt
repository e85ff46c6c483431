// What a refusal is told by: one of the desk's reasons, or a bare number.
ghost use Rattle.std.specs.Prelude.{◌≡◌, ℕ, refl};
ghost use Rattle.wire.specs.Refusals.{number_of};
ghost use Rattle.wire.specs.declared.refusal.Refusal.TheVariants.{Overlong};

use crate::refusal::Refusal;

pub trait Tells: Copy {
    // The number that it tells.
    ghost told: { Self → ℕ };

    // What tells that there are too many bytes.
    ghost overlong: { Self };

    fn told(self) -> u8
        ensures { result ≡ told self };

    fn overlong() -> Self
        ensures { result ≡ overlong };

    ghost overlong_is_2: { told overlong ≡ 2 };
}

impl Tells for Refusal {
    ghost told = { number_of };

    ghost overlong = { Overlong };

    ghost overlong_is_2 = { refl };

    fn told(self) -> u8 {
        Refusal::number(self)
    }

    fn overlong() -> Refusal {
        Self::Overlong
    }
}

// Any number, the desk's own or not.
impl Tells for u8 {
    ghost told = { λ n. n };

    ghost overlong = { 2 };

    ghost overlong_is_2 = { refl };

    fn told(self) -> u8 {
        self
    }

    fn overlong() -> u8 {
        Refusal::Overlong.number()
    }
}
