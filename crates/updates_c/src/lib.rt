// The four updates of the managed interface for a C host: the state is a dimension, a capacity and a counter, handed over as numbers. Each returns the number
// of documents 01 and 02, 0 for success, and writes how many pair steps it made, 0 where it is refused. Those that lend data name the place of an infinity or
// NaN. C has no Result and no Option: the number and the out-parameters stand for them.
// What an update writes at its end stands in each: a function for it would have, with what it says of each out-parameter, more lines than it takes away.
#![tactic(auto)]

ghost use Rattle.std.specs.Prelude.{◌≡◌, []};
ghost use Rattle.std.specs.Float.{binary64};
ghost use Rattle.machine.specs.Calls as calls;
ghost use Rattle.managed.specs.Instance.{state_value, instance};
ghost use Rattle.answers.specs.Numbers.{index_after, moved_row_after, moved_column_after};
ghost use Rattle.answers.specs.Returned.{Returned};

use answers::named_index;
use api::{ColumnIndex, LuMod, RowIndex};
use host_numbers::result_number;

// Appends a row and a column.
#[unsafe(no_mangle)]
pub extern "C" fn lumod_push(
    n: &mut usize,
    c: usize,
    l: &mut [f64],
    u: &mut [f64],
    y: &mut [f64],
    z: &mut [f64],
    w: &mut [f64],
    row: &[f64],
    column: &[f64],
    diagonal: f64,
    counter: &mut usize,
    steps: &mut usize,
    index: &mut usize,
) -> u32
    ensures { Returned binary64 (calls.push row.now column.now diagonal)
        (instance (state_value n.old c counter.old) l.old u.old y.old z.old w.old)
        (instance (state_value n.new c counter.new) l.new u.new y.new z.new w.new) [] steps.new
        (λ a. index.new ≡ index_after a index.old) result }
{
    let state = LuMod {
        n: *n,
        capacity: c,
        counter: *counter,
    };
    let pushed = state.push(l, u, y, z, w, row, column, diagonal);
    *n = pushed.state.n;
    *counter = pushed.state.counter;
    *steps = pushed.steps;
    *index = named_index(pushed.answer, *index);
    result_number(pushed.answer)
}

// Replaces a row.
#[unsafe(no_mangle)]
pub extern "C" fn lumod_replace_row(
    n: usize,
    c: usize,
    l: &mut [f64],
    u: &mut [f64],
    y: &mut [f64],
    z: &mut [f64],
    w: &mut [f64],
    row: usize,
    values: &[f64],
    counter: &mut usize,
    steps: &mut usize,
    index: &mut usize,
) -> u32
    ensures { Returned binary64 (calls.replace_row row values.now)
        (instance (state_value n c counter.old) l.old u.old y.old z.old w.old)
        (instance (state_value n c counter.new) l.new u.new y.new z.new w.new) [] steps.new
        (λ a. index.new ≡ index_after a index.old) result }
{
    let state = LuMod {
        n,
        capacity: c,
        counter: *counter,
    };
    let row_replaced = state.replace_row(l, u, y, z, w, RowIndex(row), values);
    *counter = row_replaced.state.counter;
    *steps = row_replaced.steps;
    *index = named_index(row_replaced.answer, *index);
    result_number(row_replaced.answer)
}

// Replaces a column.
#[unsafe(no_mangle)]
pub extern "C" fn lumod_replace_column(
    n: usize,
    c: usize,
    l: &mut [f64],
    u: &mut [f64],
    y: &mut [f64],
    z: &mut [f64],
    w: &mut [f64],
    column: usize,
    values: &[f64],
    counter: &mut usize,
    steps: &mut usize,
    index: &mut usize,
) -> u32
    ensures { Returned binary64 (calls.replace_column column values.now)
        (instance (state_value n c counter.old) l.old u.old y.old z.old w.old)
        (instance (state_value n c counter.new) l.new u.new y.new z.new w.new) [] steps.new
        (λ a. index.new ≡ index_after a index.old) result }
{
    let state = LuMod {
        n,
        capacity: c,
        counter: *counter,
    };
    let column_replaced = state.replace_column(l, u, y, z, w, ColumnIndex(column), values);
    *counter = column_replaced.state.counter;
    *steps = column_replaced.steps;
    *index = named_index(column_replaced.answer, *index);
    result_number(column_replaced.answer)
}

// Removes a row and a column.
#[unsafe(no_mangle)]
pub extern "C" fn lumod_remove(
    n: &mut usize,
    c: usize,
    l: &mut [f64],
    u: &mut [f64],
    y: &mut [f64],
    z: &mut [f64],
    w: &mut [f64],
    row: usize,
    column: usize,
    moved_row: &mut usize,
    moved_column: &mut usize,
    counter: &mut usize,
    steps: &mut usize,
) -> u32
    ensures { Returned binary64 (calls.remove row column)
        (instance (state_value n.old c counter.old) l.old u.old y.old z.old w.old)
        (instance (state_value n.new c counter.new) l.new u.new y.new z.new w.new) [] steps.new
        (λ a. (moved_row.new ≡ moved_row_after a moved_row.old) × (moved_column.new ≡ moved_column_after a moved_column.old)) result }
{
    let state = LuMod {
        n: *n,
        capacity: c,
        counter: *counter,
    };
    let removed = state.remove(l, u, y, z, w, RowIndex(row), ColumnIndex(column));
    *n = removed.state.n;
    *counter = removed.state.counter;
    *steps = removed.steps;
    *moved_row = answers::moved_row(removed.answer, *moved_row);
    *moved_column = answers::moved_column(removed.answer, *moved_column);
    result_number(removed.answer)
}
