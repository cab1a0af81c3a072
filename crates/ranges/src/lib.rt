// A copy, a sum of products and a multiple that is added, of whole slices: a caller lends the part of a slice that it means, as a row of L or of U.
#![tactic(auto)]

ghost use Rattle.std.specs.Prelude.{◌≡◌, ◌≤◌, length};
ghost use Rattle.std.specs.Float.{binary64};
ghost use Rattle.numbers.specs.NumberForm.{ieee};
ghost use Rattle.ranges.specs.Written.{Written};
ghost use Rattle.ranges.specs.Sums.{dot_product, multiple_added};

// Copies `source` to `target`, which is as long. By a loop: copy_from_slice makes a solve at dimension 1 slower by a quarter.
pub fn copy(target: &mut [f64], source: &[f64])
    requires { length source.now ≡ length target.old }
    ensures { target.new ≡ source.now }
{
    for (k, entry) in target.iter_mut().enumerate() {
        *entry = source[k];
    }
}

// The products a[k] * b[k], k from 0 up to the last of a, added to +0 in that order. b is cut to the length of a first, so that each turn tests one end.
pub fn dot(a: &[f64], b: &[f64]) -> f64
    requires { length a.now ≤ length b.now }
    ensures { result ≡ dot_product (ieee binary64) a.now b.now }
{
    let mut value = 0.0;
    for (p, q) in a.iter().zip(&b[..a.len()]) {
        value += p * q;
    }
    value
}

// Adds source[k] * factor to target[k], for every entry of `source`.
pub fn add_multiple(target: &mut [f64], source: &[f64], factor: f64)
    requires { length source.now ≤ length target.old }
    ensures { Written (ieee binary64) (λ k. k) (length source.now) (multiple_added (ieee binary64) target.old source.now factor) target.old target.new }
{
    for (k, entry) in source.iter().enumerate() {
        target[k] += entry * factor;
    }
}
