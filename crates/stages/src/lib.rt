// Stages of the updates of the factors.
#![tactic(auto)]

ghost use Rattle.std.specs.Prelude.{◌≡◌, [], ◌-◌, ◌*◌, ◌≤◌, ◌<◌, length};
ghost use Rattle.std.specs.Float.{binary64};
ghost use Rattle.numbers.specs.NumberForm.{ieee};
ghost use Rattle.machine.specs.Tables.{state_of};
ghost use Rattle.machine.specs.Updates.{restored, column_dropped};
ghost use Rattle.machine.specs.Counts.{restored_count, column_dropped_count};
ghost use Rattle.storage.specs.Views.{view_l, view_u};
ghost use Rattle.storage.specs.Updated.{Updated};
ghost use Rattle.factors.specs.SameStorage.{SameStorage};
ghost use Rattle.factors.specs.StepFits.{StepFits};
ghost use Rattle.factors.specs.StepPerformed.{work_with, StepPerformed};

use backward::{backward, trim};
use factors::Factors;
use forward::forward;
use numerics::tolerance::Numerics;

// Restores the triangle after U's column was put in place, w holding what the column is to be: Backward above `last`, and Forward on the row that it leaves.
// It answers how many pair steps it made.
pub fn restore(
    column: usize,
    last: usize,
    columns: usize,
    factors: &mut Factors<'_>,
    y: &mut [f64],
    w: &mut [f64],
    numerics: Numerics,
) -> usize
    requires fits { StepFits last columns factors.old y.old }
    requires long { (factors.old.n ≤ length y.old) × (factors.old.n ≤ length w.old) }
    requires within { column < last }
    ensures performed { StepPerformed column columns 0 (restored (ieee binary64) numerics.epsilon numerics.tiny column last columns)
        factors.old y.old w.old factors.new y.new w.new }
    ensures counted { result ≡ restored_count (ieee binary64) numerics.epsilon numerics.tiny column last columns (work_with factors.old y.old w.old) }
    ensures few { result ≤ 2 * (last - column) }
{
    let selected = trim(column + 1, last, w, numerics.epsilon);
    let backward_steps = backward(column + 1, selected, columns, factors, y, w, numerics);
    y[column] = w[selected];
    let forward_steps = forward(column, selected, columns, factors, y, numerics);
    backward_steps + forward_steps
}

// The column that leaves with the last one: unless it is the last, U's last column takes its place, and the triangle is restored.
// It answers how many pair steps it made.
pub fn drop_column(
    column: usize,
    factors: &mut Factors<'_>,
    y: &mut [f64],
    w: &mut [f64],
    numerics: Numerics,
) -> usize
    requires { (factors.old.n ≤ length y.old) × ((factors.old.n ≤ length w.old) × (column < factors.old.n)) }
    ensures updated { Updated (ieee binary64) factors.old.stride factors.old.n (state_of factors.old.n
        (column_dropped (ieee binary64) numerics.epsilon numerics.tiny (factors.old.n - 1)
        (view_l (ieee binary64) factors.old.stride factors.old.l.now) (view_u (ieee binary64) factors.old.stride factors.old.u.now) column))
        factors.old.l.now factors.old.u.now y.old [] w.old factors.new.l.now factors.new.u.now y.new [] w.new }
    ensures counted { result ≡ column_dropped_count (ieee binary64) numerics.epsilon numerics.tiny (factors.old.n - 1)
        (view_l (ieee binary64) factors.old.stride factors.old.l.now) (view_u (ieee binary64) factors.old.stride factors.old.u.now) column }
    ensures few { result ≤ 2 * (factors.old.n - 1 - column) }
    ensures same_storage { SameStorage factors.old factors.new }
{
    let last = factors.n - 1;
    if column < last {
        factors.u().read_column(last, &mut w[..last + 1]);
        factors.write_u_column(column, &w[..column + 1]);
        return restore(column, last, last, factors, y, w, numerics);
    }
    0
}
