// The two updates of the managed interface whose data are copied to a workspace, with its tolerances.
#![tactic(auto)]

ghost use Rattle.std.specs.Prelude.{◌-◌, ◌≤◌, ◌<◌, length};
ghost use Rattle.std.specs.Float.{binary64};
ghost use Rattle.numbers.specs.Tolerances.{managed_epsilon, managed_tiny};
ghost use Rattle.machine.specs.Calls as calls;
ghost use Rattle.factors.specs.UpdateCarriedOut.{UpdateCarriedOut};

use factors::Factors;
use numerics::tolerance::managed;
use ranges::copy;

// Appends a row and a column to the matrix; the factors' dimension is the new one. The row goes to y with the diagonal behind it.
// It answers how many pair steps it made.
pub fn push(
    factors: &mut Factors<'_>,
    y: &mut [f64],
    w: &mut [f64],
    row: &[f64],
    column: &[f64],
    diagonal: f64,
) -> usize
    requires { (factors.old.n ≤ length y.old) × ((factors.old.n - 1 ≤ length w.old) × ((factors.old.n - 1 ≤ length row.now)
        × ((factors.old.n - 1 ≤ length column.now) × (0 < factors.old.n)))) }
    ensures { UpdateCarriedOut (managed_epsilon binary64) (managed_tiny binary64) (factors.old.n - 1) (calls.push row.now column.now diagonal)
        factors.old y.old column.now w.old factors.new y.new column.now w.new result }
{
    let n = factors.n - 1;
    copy(&mut y[..n], &row[..n]);
    y[n] = diagonal;
    update_push::push(factors, y, column, w, managed())
}

// Replaces a row of the matrix. The values go to y. It answers how many pair steps it made.
pub fn replace_row(
    row: usize,
    factors: &mut Factors<'_>,
    y: &mut [f64],
    z: &mut [f64],
    w: &mut [f64],
    values: &[f64],
) -> usize
    requires { (factors.old.n ≤ length y.old) × ((factors.old.n ≤ length z.old) × ((factors.old.n ≤ length w.old)
        × ((factors.old.n ≤ length values.now) × (row < factors.old.n)))) }
    ensures { UpdateCarriedOut (managed_epsilon binary64) (managed_tiny binary64) factors.old.n (calls.replace_row row values.now)
        factors.old y.old z.old w.old factors.new y.new z.new w.new result }
{
    let n = factors.n;
    copy(&mut y[..n], &values[..n]);
    update_row::replace_row(row, factors, y, z, w, managed())
}
