// Replacing a row of the matrix, on factors in lent storage. The workspaces' first n entries are scratch.
#![tactic(auto)]

ghost use Rattle.std.specs.Prelude.{◌≤◌, ◌<◌, length};
ghost use Rattle.machine.specs.Calls as calls;
ghost use Rattle.factors.specs.UpdateCarriedOut.{UpdateCarriedOut};

use backward::{backward, trim};
use factors::Factors;
use forward::forward;
use numerics::tolerance::Numerics;

// Replaces a row of the matrix by y. It answers how many pair steps it made.
pub fn replace_row(
    row: usize,
    factors: &mut Factors<'_>,
    y: &mut [f64],
    z: &mut [f64],
    w: &mut [f64],
    numerics: Numerics,
) -> usize
    requires { (factors.old.n ≤ length y.old) × ((factors.old.n ≤ length z.old) × ((factors.old.n ≤ length w.old) × (row < factors.old.n))) }
    ensures { UpdateCarriedOut numerics.epsilon numerics.tiny factors.old.n (calls.replace_row row y.old)
        factors.old y.old z.old w.old factors.new y.new z.new w.new result }
{
    let n = factors.n;
    factors.l().read_column(row, &mut w[..n]);
    factors.clear_l_column(row, n);
    let selected = trim(0, n - 1, w, numerics.epsilon);
    let backward_steps = backward(0, selected, n, factors, z, w, numerics);
    factors.set_unit_row(selected, row);
    let forward_steps = forward(0, selected, n, factors, y, numerics);
    backward_steps + forward_steps
}
