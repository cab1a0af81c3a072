// Appending a row and a column to the factors, on factors in lent storage. The workspaces' first n entries are scratch.
#![tactic(auto)]

ghost use Rattle.std.specs.Prelude.{◌-◌, ◌≤◌, ◌<◌, length};
ghost use Rattle.std.specs.Float.{binary64};
ghost use Rattle.numbers.specs.NumberForm.{ieee};
ghost use Rattle.machine.specs.Products.{entry};
ghost use Rattle.machine.specs.Calls as calls;
ghost use Rattle.factors.specs.UpdateCarriedOut.{UpdateCarriedOut};

use factors::Factors;
use forward::forward;
use matrices::dense_l::DenseL;
use numerics::tolerance::Numerics;
use products::l_product;
use storage::u_index;

// Appends a row and a column to the matrix; the factors' dimension is the new one, y holds the row with the diagonal behind it, and z the column.
// It answers how many pair steps it made.
pub fn push(
    factors: &mut Factors<'_>,
    y: &mut [f64],
    z: &[f64],
    w: &mut [f64],
    numerics: Numerics,
) -> usize
    requires { (factors.old.n ≤ length y.old) × ((factors.old.n - 1 ≤ length z.now) × ((factors.old.n - 1 ≤ length w.old) × (0 < factors.old.n))) }
    ensures { UpdateCarriedOut numerics.epsilon numerics.tiny (factors.old.n - 1) (calls.push y.old z.now (entry (ieee binary64) y.old (factors.old.n - 1)))
        factors.old y.old z.now w.old factors.new y.new z.now w.new result }
{
    let n = factors.n;
    let last = n - 1;
    let l = DenseL {
        n: last,
        stride: factors.stride,
        entries: factors.l().entries,
    };
    l_product(l, z, w);
    factors.clear_l_column(last, last);
    factors.set_unit_row(last, last);
    factors.write_u_column(last, &w[..last]);
    let corner = u_index(last, last, factors.stride);
    factors.u[corner] = 0.0;
    forward(0, last, n, factors, y, numerics)
}
