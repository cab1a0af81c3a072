// Forward: a row below U's diagonal is eliminated by the rows above it, and takes its place in U.
#![tactic(auto)]

ghost use Rattle.std.specs.Prelude.{◌≡◌, [], ◌-◌, ◌≤◌};
ghost use Rattle.std.specs.Float.{binary64};
ghost use Rattle.numbers.specs.NumberForm.{ieee};
ghost use Rattle.machine.specs.Forward;
ghost use Rattle.machine.specs.Counts.{forward_count};
ghost use Rattle.factors.specs.StepFits.{StepFits};
ghost use Rattle.factors.specs.StepPerformed.{work_with, StepPerformed};

use factors::Factors;
use forward_row::forward_row;
use numerics::tolerance::Numerics;

// The rows from `first` to last - 1; then U's row `last` takes y, from `last` on below `columns`.
// It answers how many pair steps it made.
pub fn forward(
    first: usize,
    last: usize,
    columns: usize,
    factors: &mut Factors<'_>,
    y: &mut [f64],
    numerics: Numerics,
) -> usize
    requires fits { StepFits last columns factors.old y.old }
    requires within { first ≤ last }
    ensures performed { StepPerformed 0 columns 0 (Forward.forward (ieee binary64) numerics.epsilon numerics.tiny first last columns)
        factors.old y.old [] factors.new y.new [] }
    ensures counted { result ≡ forward_count (ieee binary64) numerics.epsilon numerics.tiny first last columns (work_with factors.old y.old []) }
    ensures few { result ≤ last - first }
{
    let mut steps = 0;
    // Rows by number: each is a row of U, a row of L and an entry of y.
    for row in first..last {
        steps += forward_row(row, last, columns, factors, y, numerics);
    }
    factors.write_u_row(last, &y[last..columns]);
    steps
}
