// Whether every active entry of the factors is finite, row by row. It only reads, and nothing but active entries.
#![tactic(auto)]

ghost use Rattle.std.specs.Prelude.{◌≡◌, ◌&&◌, ◌+◌, ◌-◌, ◌%◌, ◌≤◌, length};
ghost use Rattle.std.specs.Float.{binary64};
ghost use Rattle.std.specs.Float.Ieee.Scale.{finite};
ghost use Rattle.numbers.specs.NumberForm.{ieee};
ghost use Rattle.machine.specs.Products.{entry};
ghost use Rattle.machine.specs.Readiness.{all_below, finite_l, finite_u};
ghost use Rattle.matrices.specs.Tables.{table_l, table_u};
ghost use Rattle.finite_factors.specs.Differences.{zero_or_nan};

use matrices::dense_l::DenseL;
use matrices::packed_u::PackedU;
use numerics::real::is_finite;

// A value less itself: +0 where it is finite, and NaN where it is not.
#[tactic(auto, using(crate::proofs::Differences::difference_is))]
fn difference(value: f64) -> f64
    ensures { result ≡ zero_or_nan (finite value) }
{
    value - value
}

// The sum of four differences from a place on: +0 where all four values are finite, and NaN where one is not.
fn four_differences(values: &[f64], i: usize) -> f64
    requires { i + 4 ≤ length values.now }
    ensures { result ≡ zero_or_nan (all_below 4 (λ k. finite (entry (ieee binary64) values.now (i + k)))) }
{
    let first = difference(values[i]) + difference(values[i + 1]);
    let last = difference(values[i + 2]) + difference(values[i + 3]);
    first + last
}

// Whether the values are all finite, up to three at the end apart, which are not looked at. A sum with a NaN in it stays NaN, so that one comparison tells of
// all: comparing each value takes twice as long. The four differences don't wait for each other.
fn finite_fours(values: &[f64]) -> bool
    ensures { result ≡ all_below (length values.now - length values.now % 4) (λ k. finite (entry (ieee binary64) values.now k)) }
{
    let mut sum = 0.0;
    for four in 0..values.len() / 4 {
        sum += four_differences(values, 4 * four);
    }
    sum == 0.0
}

// Whether the values are all finite, one after another.
fn finite_each(values: &[f64]) -> bool
    ensures { result ≡ all_below (length values.now) (λ k. finite (entry (ieee binary64) values.now k)) }
{
    values.iter().all(|value| is_finite(*value))
}

// Whether the values are all finite.
pub fn finite_range(values: &[f64]) -> bool
    ensures { result ≡ all_below (length values.now) (λ k. finite (entry (ieee binary64) values.now k)) }
{
    let fours = values.len() - values.len() % 4;
    finite_fours(values) & finite_each(&values[fours..])
}

// L, row by row.
fn finite_l(l: DenseL<'_>) -> bool
    ensures { result ≡ finite_l (ieee binary64) l.entry.n (table_l l.entry) }
{
    (0..l.n).all(|i| finite_range(l.row(i)))
}

// U, row by row, each from its diagonal on.
fn finite_u(u: PackedU<'_>) -> bool
    ensures { result ≡ finite_u (ieee binary64) u.entry.n (table_u u.entry) }
{
    (0..u.n).all(|i| finite_range(u.row(i)))
}

// L, then U.
pub fn finite_factors(l: DenseL<'_>, u: PackedU<'_>) -> bool
    ensures { result ≡ (finite_l (ieee binary64) l.entry.n (table_l l.entry) && finite_u (ieee binary64) u.entry.n (table_u u.entry)) }
{
    finite_l(l) && finite_u(u)
}
