// Removing a row and a column of the matrix, on factors in lent storage. The workspaces' first n entries are scratch.
#![tactic(auto)]

ghost use Rattle.std.specs.Prelude.{◌-◌, ◌≤◌, ◌<◌, length};
ghost use Rattle.machine.specs.Calls as calls;
ghost use Rattle.factors.specs.UpdateCarriedOut.{UpdateCarriedOut};

use backward::backward;
use factors::Factors;
use numerics::tolerance::Numerics;
use stages::drop_column;

// Removes a row and a column of the matrix: the last of each moves to the place that becomes free. The new dimension is n - 1.
// It answers how many pair steps it made.
pub fn remove(
    row: usize,
    column: usize,
    factors: &mut Factors<'_>,
    y: &mut [f64],
    z: &mut [f64],
    w: &mut [f64],
    numerics: Numerics,
) -> usize
    requires { (factors.old.n ≤ length y.old) × ((factors.old.n ≤ length z.old) × ((factors.old.n ≤ length w.old)
        × ((row < factors.old.n) × (column < factors.old.n)))) }
    ensures { UpdateCarriedOut numerics.epsilon numerics.tiny factors.old.n (calls.remove row column)
        factors.old y.old z.old w.old factors.new y.new z.new w.new result }
{
    let column_steps = drop_column(column, factors, y, w, numerics);
    let n = factors.n;
    let last = n - 1;
    factors.l().read_column(row, &mut w[..n]);
    factors.copy_l_column(last, row);
    let row_steps = backward(0, last, last, factors, z, w, numerics);
    column_steps + row_steps
}
