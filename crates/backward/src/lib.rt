// Backward: the entries of v above `selected` are eliminated, the row of U that they leave open being held in y.
#![tactic(auto)]

ghost use Rattle.std.specs.Prelude.{◌≡◌, ◌-◌, ◌≤◌, ◌<◌, length};
ghost use Rattle.std.specs.Float.{binary64};
ghost use Rattle.numbers.specs.NumberForm.{ieee};
ghost use Rattle.machine.specs.Products.{entry};
ghost use Rattle.machine.specs.Backward.{backward_rows};
ghost use Rattle.machine.specs.Backward;
ghost use Rattle.machine.specs.Counts.{backward_rows_count, backward_count};
ghost use Rattle.factors.specs.StepFits.{StepFits};
ghost use Rattle.factors.specs.StepPerformed.{work_with, StepPerformed};

use backward_row::backward_row;
use factors::Factors;
use numerics::real::abs;
use numerics::tolerance::Numerics;
use ranges::copy;

// From `last` down to `first`, past entries of v that are at most epsilon.
pub fn trim(first: usize, last: usize, v: &[f64], epsilon: f64) -> usize
    requires { (first ≤ last) × (last < length v.now) }
    ensures { (result ≡ Backward.trim (ieee binary64) epsilon first last (entry (ieee binary64) v.now)) × ((first ≤ result) × (result ≤ last)) }
{
    let above = &v[first + 1..=last];
    // A NaN is not at most epsilon, so it is found.
    match above.iter().rposition(|x| !(abs(*x) <= epsilon)) {
        Some(k) => first + 1 + k,
        None => first,
    }
}

// The rows from selected - 1 down to `first`. It answers how many pair steps it made.
pub fn backward_rows(
    first: usize,
    selected: usize,
    columns: usize,
    factors: &mut Factors<'_>,
    y: &mut [f64],
    v: &mut [f64],
    numerics: Numerics,
) -> usize
    requires fits { StepFits selected columns factors.old y.old }
    requires long { factors.old.n ≤ length v.old }
    requires within { first ≤ selected }
    ensures performed { StepPerformed first columns factors.old.n
        (backward_rows (ieee binary64) numerics.epsilon numerics.tiny selected columns (selected - first))
        factors.old y.old v.old factors.new y.new v.new }
    ensures counted { result ≡ backward_rows_count (ieee binary64) numerics.epsilon numerics.tiny selected columns (selected - first)
        (work_with factors.old y.old v.old) }
    ensures few { result ≤ selected - first }
{
    let mut steps = 0;
    // Rows by number: each is a row of U, a row of L, an entry of y and one of v.
    for row in (first..selected).rev() {
        steps += backward_row(row, selected, columns, factors, y, v, numerics);
    }
    steps
}

// U's row `selected` goes to y, from `selected` on below `columns`; then the rows from selected - 1 down to `first`.
// It answers how many pair steps it made.
pub fn backward(
    first: usize,
    selected: usize,
    columns: usize,
    factors: &mut Factors<'_>,
    y: &mut [f64],
    v: &mut [f64],
    numerics: Numerics,
) -> usize
    requires fits { StepFits selected columns factors.old y.old }
    requires long { factors.old.n ≤ length v.old }
    requires within { first ≤ selected }
    ensures performed { StepPerformed first columns factors.old.n (Backward.backward (ieee binary64) numerics.epsilon numerics.tiny first selected columns)
        factors.old y.old v.old factors.new y.new v.new }
    ensures counted { result ≡ backward_count (ieee binary64) numerics.epsilon numerics.tiny first selected columns (work_with factors.old y.old v.old) }
    ensures few { result ≤ selected - first }
{
    copy(
        &mut y[selected..columns],
        &factors.u().row(selected)[..columns - selected],
    );
    backward_rows(first, selected, columns, factors, y, v, numerics)
}
