// Replacing a column of the matrix, on factors in lent storage. The workspaces' first n entries are scratch.
#![tactic(auto)]

ghost use Rattle.std.specs.Prelude.{◌≤◌, ◌<◌, length};
ghost use Rattle.machine.specs.Calls as calls;
ghost use Rattle.factors.specs.UpdateCarriedOut.{UpdateCarriedOut};

use factors::Factors;
use numerics::tolerance::Numerics;
use products::l_product;
use stages::restore;

// Replaces a column of the matrix by z. It answers how many pair steps it made.
pub fn replace_column(
    column: usize,
    factors: &mut Factors<'_>,
    y: &mut [f64],
    z: &[f64],
    w: &mut [f64],
    numerics: Numerics,
) -> usize
    requires { (factors.old.n ≤ length y.old) × ((factors.old.n ≤ length z.now) × ((factors.old.n ≤ length w.old) × (column < factors.old.n))) }
    ensures { UpdateCarriedOut numerics.epsilon numerics.tiny factors.old.n (calls.replace_column column z.now)
        factors.old y.old z.now w.old factors.new y.new z.now w.new result }
{
    let n = factors.n;
    l_product(factors.l(), z, w);
    factors.write_u_column(column, &w[..column + 1]);
    if column + 1 < n {
        return restore(column, n - 1, n, factors, y, w, numerics);
    }
    0
}
