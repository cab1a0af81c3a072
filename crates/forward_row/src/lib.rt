// One row of Forward on factors in lent storage.
#![tactic(auto)]

ghost use Rattle.std.specs.Prelude.{◌≡◌, [], ◌≤◌, ◌<◌};
ghost use Rattle.std.specs.Float.{binary64};
ghost use Rattle.numbers.specs.NumberForm.{ieee};
ghost use Rattle.machine.specs.Forward.{forward_row};
ghost use Rattle.machine.specs.Counts.{forward_row_count};
ghost use Rattle.factors.specs.StepFits.{StepFits};
ghost use Rattle.factors.specs.StepPerformed.{work_with, StepPerformed};

use factors::Factors;
use numerics::pair::elementary;
use numerics::real::abs;
use numerics::tolerance::Numerics;
use storage::u_index;
use transforms::{transform_rows, transform_slices};

// One row: a pair step on U(row, row) and y[row], applied to the rest of the row and to L's rows `row` and `last`, unless y[row] is negligible.
// It answers how many pair steps it made: 1 or 0.
pub fn forward_row(
    row: usize,
    last: usize,
    columns: usize,
    factors: &mut Factors<'_>,
    y: &mut [f64],
    numerics: Numerics,
) -> usize
    requires fits { StepFits last columns factors.old y.old }
    requires within { row < last }
    ensures performed { StepPerformed 0 columns 0 (forward_row (ieee binary64) numerics.epsilon numerics.tiny last columns row)
        factors.old y.old [] factors.new y.new [] }
    ensures counted { result ≡ forward_row_count (ieee binary64) numerics.epsilon row (work_with factors.old y.old []) }
    ensures few { result ≤ 1 }
{
    let n = factors.n;
    let stride = factors.stride;
    let diagonal = u_index(row, row, stride);
    let mut pivot = factors.u[diagonal];
    let mut value = y[row];
    let acts = abs(value) > numerics.epsilon * abs(pivot);
    if acts {
        let transform = elementary(&mut pivot, &mut value, numerics.tiny);
        factors.u[diagonal] = pivot;
        y[row] = value;
        // U's row is cut here and not by a method: of a part that a method lends to be written, a caller knows the length alone afterwards.
        transform_slices(
            &mut factors.u[diagonal + 1..diagonal + (columns - row)],
            &mut y[row + 1..columns],
            transform,
        );
        transform_rows(factors.l, row * stride, last * stride, n, transform);
        return 1;
    }
    0
}
