// The part of a solve that divides by U's diagonal.
#![tactic(auto)]

ghost use Rattle.std.specs.Prelude.{◌≤◌, length};
ghost use Rattle.std.specs.Float.{binary64};
ghost use Rattle.numbers.specs.NumberForm.{ieee};
ghost use Rattle.ranges.specs.Written.{Written};
ghost use Rattle.substitutions.specs.Substituted.{back_substituted, forward_substituted};

use matrices::packed_u::PackedU;
use ranges::dot;

// Solves with U in place, from row n - 1 down to 0. No diagonal is tested.
pub fn back_substitute(u: PackedU<'_>, b: &mut [f64])
    requires { u.n ≤ length b.old }
    ensures { Written (ieee binary64) (λ i. i) u.entry.n (back_substituted (ieee binary64) u.entry.stride u.entry.n u.entry.entries.now b.old) b.old b.new }
{
    // By number: a row of U, the entries of b behind it and its own, which the rows below have left.
    for row in (0..u.n).rev() {
        let entries = u.row(row);
        let sum = dot(&entries[1..], &b[row + 1..u.n]);
        b[row] = (b[row] - sum) / entries[0];
    }
}

// Solves with U transposed in place, from row 0 up to n - 1. No diagonal is tested.
pub fn forward_substitute(u: PackedU<'_>, b: &mut [f64])
    requires { u.n ≤ length b.old }
    ensures { Written (ieee binary64) (λ i. i) u.entry.n (forward_substituted (ieee binary64) u.entry.stride u.entry.n u.entry.entries.now b.old) b.old b.new }
{
    // By number: a column of U, the entries of b before it and its own.
    for row in 0..u.n {
        let sum = u.dot_column(row, b);
        b[row] = (b[row] - sum) / u.get(row, row);
    }
}
