// Absolute value and finiteness of a double, from its bits. `to_bits` is undefined at a NaN, so both ask for a NaN first.
ghost use Rattle.std.specs.Prelude.{◌≡◌};
ghost use Rattle.std.specs.Float.Ieee.Scale.{finite};
ghost use Rattle.numbers.specs.NumberForm.{absolute};

// |x|: the sign's bit is cleared. A NaN comes back as it is.
pub fn abs(x: f64) -> f64
    ensures { result ≡ absolute x }
{
    if x != x {
        return x;
    }
    f64::from_bits(f64::to_bits(x) % 0x8000_0000_0000_0000)
}

// Whether x is neither an infinity nor a NaN: the exponent's field is not all ones.
pub fn is_finite(x: f64) -> bool
    ensures { result ≡ finite x }
{
    if x != x {
        return false;
    }
    f64::to_bits(x) % 0x8000_0000_0000_0000 / 0x10_0000_0000_0000 != 2047
}
