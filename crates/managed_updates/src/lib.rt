// The four managed updates on a dimension, a capacity and lent slices: each is tested, and then either refused, with nothing written, or carried out.
// They differ in their tests, in what they lend on and in the update that they make: one function over these would ask for a contract of each.
#![tactic(auto)]

ghost use Rattle.std.specs.Prelude.{◌≡◌, length};
ghost use Rattle.std.specs.Float.{binary64};
ghost use Rattle.machine.specs.Calls as calls;
ghost use Rattle.managed_updates.specs.Attempted.{report_of, remove_report_of, Attempted};

use call_tests::{test_push, test_remove, test_replacement};
use factors::Factors;
use managed::LentLengths;
use numerics::tolerance::managed;
use refusals::Refusal;

// What an update that was carried out leaves: the dimension, and how many pair steps it made.
#[derive(Clone, Copy, Debug, PartialEq, Eq)]
pub struct Made {
    pub dimension: usize,
    pub steps: usize,
}

// The lengths of what an update is lent.
fn lengths(l: &[f64], u: &[f64], y: &[f64], z: &[f64], w: &[f64]) -> LentLengths
    ensures { result ≡ record { l = length l.now; u = length u.now; y = length y.now; z = length z.now; w = length w.now } }
{
    LentLengths {
        l: l.len(),
        u: u.len(),
        y: y.len(),
        z: z.len(),
        w: w.len(),
    }
}

// Appends a row and a column: 4, 7, 23, 8.
#[tactic(auto, using(managed::proofs::Tested::push_passed))]
pub fn push(
    n: usize,
    capacity: usize,
    l: &mut [f64],
    u: &mut [f64],
    y: &mut [f64],
    z: &mut [f64],
    w: &mut [f64],
    row: &[f64],
    column: &[f64],
    diagonal: f64,
) -> Result<Made, Refusal>
    ensures { Attempted binary64 (calls.push row.now column.now diagonal) (report_of result) n capacity result
        l.old u.old y.old z.old w.old l.new u.new y.new z.new w.new }
{
    let lent = lengths(l, u, y, z, w);
    test_push(n, capacity, lent, row, column, diagonal)?;
    let mut factors = Factors {
        n: n + 1,
        stride: capacity,
        l,
        u,
    };
    let steps = copied_data::push(&mut factors, y, w, row, column, diagonal);
    Ok(Made {
        dimension: n + 1,
        steps,
    })
}

// Replaces a row: 5, 7, 23, 8.
#[tactic(auto, using(managed::proofs::Tested::replacement_passed))]
pub fn replace_row(
    n: usize,
    capacity: usize,
    l: &mut [f64],
    u: &mut [f64],
    y: &mut [f64],
    z: &mut [f64],
    w: &mut [f64],
    row: usize,
    values: &[f64],
) -> Result<Made, Refusal>
    ensures { Attempted binary64 (calls.replace_row row values.now) (report_of result) n capacity result
        l.old u.old y.old z.old w.old l.new u.new y.new z.new w.new }
{
    let lent = lengths(l, u, y, z, w);
    let outside = Refusal::RowOutOfBounds;
    test_replacement(n, capacity, lent, row, outside, values)?;
    let mut factors = Factors {
        n,
        stride: capacity,
        l,
        u,
    };
    let steps = copied_data::replace_row(row, &mut factors, y, z, w, values);
    Ok(Made {
        dimension: n,
        steps,
    })
}

// Replaces a column: 6, 7, 23, 8.
#[tactic(auto, using(managed::proofs::Tested::replacement_passed))]
pub fn replace_column(
    n: usize,
    capacity: usize,
    l: &mut [f64],
    u: &mut [f64],
    y: &mut [f64],
    z: &mut [f64],
    w: &mut [f64],
    column: usize,
    values: &[f64],
) -> Result<Made, Refusal>
    ensures { Attempted binary64 (calls.replace_column column values.now) (report_of result) n capacity result
        l.old u.old y.old z.old w.old l.new u.new y.new z.new w.new }
{
    let lent = lengths(l, u, y, z, w);
    let outside = Refusal::ColumnOutOfBounds;
    test_replacement(n, capacity, lent, column, outside, values)?;
    let mut factors = Factors {
        n,
        stride: capacity,
        l,
        u,
    };
    let steps = update_column::replace_column(column, &mut factors, y, values, w, managed());
    Ok(Made {
        dimension: n,
        steps,
    })
}

// Removes a row and a column: 5, 6, 8.
#[tactic(auto, using(managed::proofs::Tested::remove_passed))]
pub fn remove(
    n: usize,
    capacity: usize,
    l: &mut [f64],
    u: &mut [f64],
    y: &mut [f64],
    z: &mut [f64],
    w: &mut [f64],
    row: usize,
    column: usize,
) -> Result<Made, Refusal>
    ensures { Attempted binary64 (calls.remove row column) (remove_report_of row column result) n capacity result
        l.old u.old y.old z.old w.old l.new u.new y.new z.new w.new }
{
    let lent = lengths(l, u, y, z, w);
    test_remove(n, capacity, lent, row, column)?;
    let mut factors = Factors {
        n,
        stride: capacity,
        l,
        u,
    };
    let steps = update_remove::remove(row, column, &mut factors, y, z, w, managed());
    Ok(Made {
        dimension: n - 1,
        steps,
    })
}
