// One row of Backward on factors in lent storage.
#![tactic(auto)]

ghost use Rattle.std.specs.Prelude.{◌≡◌, ◌≤◌, ◌<◌, length};
ghost use Rattle.std.specs.Float.{binary64};
ghost use Rattle.numbers.specs.NumberForm.{ieee};
ghost use Rattle.machine.specs.Backward.{backward_row};
ghost use Rattle.machine.specs.Counts.{backward_row_count};
ghost use Rattle.factors.specs.StepFits.{StepFits};
ghost use Rattle.factors.specs.StepPerformed.{work_with, StepPerformed};

use factors::Factors;
use numerics::pair::elementary;
use numerics::real::abs;
use numerics::tolerance::Numerics;
use storage::u_index;
use transforms::{transform_rows, transform_slices};

// One row: y[row] becomes +0; then a pair step on v[selected] and v[row], applied to y and U's row, and to L's rows `selected` and `row`, unless v[row] is
// negligible. It answers how many pair steps it made: 1 or 0.
pub fn backward_row(
    row: usize,
    selected: usize,
    columns: usize,
    factors: &mut Factors<'_>,
    y: &mut [f64],
    v: &mut [f64],
    numerics: Numerics,
) -> usize
    requires fits { StepFits selected columns factors.old y.old }
    requires long { factors.old.n ≤ length v.old }
    requires within { row < selected }
    ensures performed { StepPerformed row columns factors.old.n (backward_row (ieee binary64) numerics.epsilon numerics.tiny selected columns row)
        factors.old y.old v.old factors.new y.new v.new }
    ensures counted { result ≡ backward_row_count (ieee binary64) numerics.epsilon selected row (work_with factors.old y.old v.old) }
    ensures few { result ≤ 1 }
{
    let n = factors.n;
    let stride = factors.stride;
    y[row] = 0.0;
    let mut pivot = v[selected];
    let mut value = v[row];
    let skips = abs(value) <= numerics.epsilon * abs(pivot);
    if skips {
        return 0;
    }
    let transform = elementary(&mut pivot, &mut value, numerics.tiny);
    v[selected] = pivot;
    v[row] = value;
    let diagonal = u_index(row, row, stride);
    // U's row is cut here and not by a method: of a part that a method lends to be written, a caller knows the length alone afterwards.
    transform_slices(
        &mut y[row..columns],
        &mut factors.u[diagonal..diagonal + (columns - row)],
        transform,
    );
    transform_rows(factors.l, selected * stride, row * stride, n, transform);
    1
}
