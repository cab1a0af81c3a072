// The tolerances of the two interfaces.
ghost use Rattle.std.specs.Prelude.{◌≡◌};
ghost use Rattle.std.specs.Float.{binary64};
ghost use Rattle.numbers.specs.Tolerances.{tiny_of, update_tiny, managed_epsilon, managed_tiny, zero_based_epsilon, zero_based_tiny};

// E and T.
#[derive(Clone, Copy, Debug, PartialEq)]
pub struct Numerics {
    pub epsilon: f64,
    pub tiny: f64,
}

pub const MACHINE_PRECISION: f64 = 2.22e-16;

// T is E times this.
pub const TINY_NUMBER: f64 = 1.0e-4;

impl Numerics {
    // E, and the T that belongs to it.
    fn with_epsilon(epsilon: f64) -> Numerics
        ensures { (result.epsilon ≡ epsilon) × (result.tiny ≡ tiny_of binary64 epsilon (update_tiny binary64)) }
    {
        Numerics {
            epsilon,
            tiny: epsilon * TINY_NUMBER,
        }
    }
}

// The managed interface.
pub fn managed() -> Numerics
    ensures { (result.epsilon ≡ managed_epsilon binary64) × (result.tiny ≡ managed_tiny binary64) }
{
    Numerics::with_epsilon(f64::EPSILON)
}

// The zero-based interface.
pub fn zero_based() -> Numerics
    ensures { (result.epsilon ≡ zero_based_epsilon) × (result.tiny ≡ zero_based_tiny) }
{
    Numerics::with_epsilon(MACHINE_PRECISION)
}
