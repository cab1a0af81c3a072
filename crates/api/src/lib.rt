// The managed interface: a dimension, a capacity and a counter by value, and storage lent to each call.
#![tactic(auto)]

ghost use Rattle.std.specs.Prelude.{◌≡◌, length};
ghost use Rattle.std.specs.Float.{binary64};
ghost use Rattle.numbers.specs.NumberForm.{ieee};
ghost use Rattle.machine.specs.Calls as calls;
ghost use Rattle.storage.specs.Lengths as lengths;
ghost use Rattle.managed.specs.Instance.{instance, lent_to_solve};
ghost use Rattle.managed.specs.Refusals.{storage_tests};
ghost use Rattle.managed.specs.StorageAnswers.{adopted_under, ready_answer};
ghost use Rattle.managed.specs.Demands.{ManagedOutcome};
ghost use Rattle.managed_updates.specs.Attempted as updates;
ghost use Rattle.readiness.specs.Readiness.{readiness_of};
ghost use Rattle.api.specs.Answers.{state_of, moved_row_of, moved_column_of, update_report, remove_report, solve_report, adoption_of};

use counter::added;
use managed_solves::{solve, solve_transpose};
use managed_updates::{Made, push, remove, replace_column, replace_row};
use readiness::ready;
use refusals::{Refusal, test_storage};
use storage::{SizeOverflow, StorageLengths, storage_lengths};

// The dimension and the capacity of factors whose storage the caller keeps, and the counter of the pair steps that their updates made.
#[derive(Clone, Copy, Debug, PartialEq, Eq)]
pub struct LuMod {
    pub n: usize,
    pub capacity: usize,
    pub counter: usize,
}

// The index of a row of the matrix.
#[derive(Clone, Copy, Debug, PartialEq, Eq)]
pub struct RowIndex(pub usize);

// The index of a column of the matrix.
#[derive(Clone, Copy, Debug, PartialEq, Eq)]
pub struct ColumnIndex(pub usize);

// What a remove moved to the places of the removed row and column: the last row and the last column, by their old indices, each unless it was itself removed.
#[derive(Clone, Copy, Debug, PartialEq, Eq)]
pub struct Removal {
    pub moved_row: Option<RowIndex>,
    pub moved_column: Option<ColumnIndex>,
}

// What a solve hands back: the state for the next call, and its answer.
#[derive(Clone, Copy, Debug, PartialEq, Eq)]
pub struct CallResult {
    pub state: LuMod,
    pub answer: Result<(), Refusal>,
}

// The same of an update, with how many pair steps it made: 0 where it was refused. Remove answers what moved, the others nothing more.
#[derive(Clone, Copy, Debug, PartialEq, Eq)]
pub struct UpdateResult<T> {
    pub state: LuMod,
    pub answer: Result<T, Refusal>,
    pub steps: usize,
}

// The state after an update: its dimension and the counter with its pair steps, or where it was refused the state as it was.
fn state_after(state: LuMod, update: Result<Made, Refusal>) -> LuMod
    ensures { state_of result ≡ updates.state_after update state.n state.capacity state.counter }
{
    match update {
        Ok(made) => LuMod {
            n: made.dimension,
            capacity: state.capacity,
            counter: added(state.counter, made.steps),
        },
        Err(_) => state,
    }
}

// How many pair steps an update made: 0 where it was refused.
fn steps_of(update: Result<Made, Refusal>) -> usize
    ensures { result ≡ updates.steps_of update }
{
    update.map_or(0, |made| made.steps)
}

// What an update hands back, remove apart. It and `remove_result` differ in what they answer of `Made`: one over a closure would need that closure's contract.
fn update_result(state: LuMod, update: Result<Made, Refusal>) -> UpdateResult<()>
    ensures { (state_of result.state ≡ updates.state_after update state.n state.capacity state.counter) × (update_report result ≡ updates.report_of update) }
{
    UpdateResult {
        state: state_after(state, update),
        answer: update.map(|_| ()),
        steps: steps_of(update),
    }
}

// What moved when a row and a column were removed: the last of each, where it is not itself the one that is removed.
fn what_moved(row: usize, column: usize, last: usize) -> Removal
    ensures { (moved_row_of result.moved_row ≡ updates.moved_from last row) × (moved_column_of result.moved_column ≡ updates.moved_from last column) }
{
    Removal {
        moved_row: (row != last).then_some(RowIndex(last)),
        moved_column: (column != last).then_some(ColumnIndex(last)),
    }
}

// What remove hands back.
fn remove_result(
    state: LuMod,
    update: Result<Made, Refusal>,
    row: usize,
    column: usize,
) -> UpdateResult<Removal>
    ensures { (state_of result.state ≡ updates.state_after update state.n state.capacity state.counter)
        × (remove_report result ≡ updates.remove_report_of row column update) }
{
    UpdateResult {
        state: state_after(state, update),
        answer: update.map(|made| what_moved(row, column, made.dimension)),
        steps: steps_of(update),
    }
}

// Every call tests the storage that it is lent (InvalidDimension, SizeOverflow, InsufficientL, InsufficientU), an update then its workspaces, which have one
// length (UnequalWorkspaces), and then what its comment names, in that order. A refused call writes nothing and hands the state back as it was. An update
// leaves the workspaces from the larger dimension on, and what lies outside the active entries, as they were. Scratch are the workspaces' entries below, and
// the row and the column that remove drops. It hands back how many pair steps it made, added to the counter up to 999,999; a larger counter counts as that.
impl LuMod {
    // The lengths of L and U that a capacity needs. SizeOverflow where capacity + 1 or L's length exceeds usize.
    pub fn storage_lengths(capacity: usize) -> Result<StorageLengths, SizeOverflow>
        ensures { lengths.answer_of result ≡ lengths.required_lengths capacity }
    {
        storage_lengths(capacity)
    }

    // Adopts storage at a dimension and a capacity; nothing of it is read or written. InvalidDimension where the dimension exceeds the capacity,
    // SizeOverflow where the lengths for it exceed usize, InsufficientL where L is shorter, InsufficientU where U is.
    pub fn from_storage(
        dimension: usize,
        capacity: usize,
        l: &[f64],
        u: &[f64],
    ) -> Result<LuMod, Refusal>
        ensures { adoption_of result ≡ adopted_under (storage_tests dimension capacity (length l.now) (length u.now)) dimension capacity }
    {
        test_storage(dimension, capacity, l.len(), u.len())?;
        Ok(LuMod {
            n: dimension,
            capacity,
            counter: 0,
        })
    }

    // The number of active rows and columns.
    pub fn dimension(self) -> usize
        ensures { result ≡ self.n }
    {
        self.n
    }

    // The largest dimension that the storage has room for.
    pub fn capacity(self) -> usize
        ensures { result ≡ self.capacity }
    {
        self.capacity
    }

    // Whether the factors are ready: no active diagonal of U is zero, infinite or NaN, and every active entry of L and U is finite. Nothing is written. It does
    // not promise that a solve stays finite: one on ready factors can still overflow.
    pub fn ready(self, l: &[f64], u: &[f64]) -> Result<bool, Refusal>
        ensures { readiness_of result ≡ ready_answer (ieee binary64) self.n self.capacity l.now u.now }
    {
        ready(self.n, self.capacity, l, u)
    }

    // Appends a row and a column to the matrix; `diagonal` is the entry where they meet. The dimension grows by one. CapacityExceeded where it is the
    // capacity, LengthMismatch where row or column has another length than the dimension, NonFiniteData where a value is infinite or NaN, with the first such
    // place, counted from 0 through row, column and diagonal, InsufficientWorkspace where the workspaces are no longer than the dimension.
    pub fn push(
        self,
        l: &mut [f64],
        u: &mut [f64],
        y: &mut [f64],
        z: &mut [f64],
        w: &mut [f64],
        row: &[f64],
        column: &[f64],
        diagonal: f64,
    ) -> UpdateResult<()>
        ensures { ManagedOutcome binary64 (calls.push row.now column.now diagonal)
            (instance (state_of self) l.old u.old y.old z.old w.old)
            (instance (state_of result.state) l.new u.new y.new z.new w.new) (update_report result) }
    {
        let update = push(self.n, self.capacity, l, u, y, z, w, row, column, diagonal);
        update_result(self, update)
    }

    // Replaces a row of the matrix. RowOutOfBounds where there is no such row, LengthMismatch where values has another length than the dimension,
    // NonFiniteData where a value is infinite or NaN, with the first such place, InsufficientWorkspace where the workspaces are shorter.
    pub fn replace_row(
        self,
        l: &mut [f64],
        u: &mut [f64],
        y: &mut [f64],
        z: &mut [f64],
        w: &mut [f64],
        row: RowIndex,
        values: &[f64],
    ) -> UpdateResult<()>
        ensures { ManagedOutcome binary64 (calls.replace_row row.0 values.now)
            (instance (state_of self) l.old u.old y.old z.old w.old)
            (instance (state_of result.state) l.new u.new y.new z.new w.new) (update_report result) }
    {
        let update = replace_row(self.n, self.capacity, l, u, y, z, w, row.0, values);
        update_result(self, update)
    }

    // Replaces a column of the matrix. ColumnOutOfBounds where there is no such column, LengthMismatch where values has another length than the dimension,
    // NonFiniteData where a value is infinite or NaN, with the first such place, InsufficientWorkspace where the workspaces are shorter.
    pub fn replace_column(
        self,
        l: &mut [f64],
        u: &mut [f64],
        y: &mut [f64],
        z: &mut [f64],
        w: &mut [f64],
        column: ColumnIndex,
        values: &[f64],
    ) -> UpdateResult<()>
        ensures { ManagedOutcome binary64 (calls.replace_column column.0 values.now)
            (instance (state_of self) l.old u.old y.old z.old w.old)
            (instance (state_of result.state) l.new u.new y.new z.new w.new) (update_report result) }
    {
        let update = replace_column(self.n, self.capacity, l, u, y, z, w, column.0, values);
        update_result(self, update)
    }

    // Removes a row and a column of the matrix; the last of each moves to the place of the removed one, and is named where it is another. The dimension falls
    // by one. RowOutOfBounds, then ColumnOutOfBounds, where there is no such row or column, InsufficientWorkspace where the workspaces are shorter than the
    // dimension was.
    pub fn remove(
        self,
        l: &mut [f64],
        u: &mut [f64],
        y: &mut [f64],
        z: &mut [f64],
        w: &mut [f64],
        row: RowIndex,
        column: ColumnIndex,
    ) -> UpdateResult<Removal>
        ensures { ManagedOutcome binary64 (calls.remove row.0 column.0)
            (instance (state_of self) l.old u.old y.old z.old w.old)
            (instance (state_of result.state) l.new u.new y.new z.new w.new) (remove_report result) }
    {
        let update = remove(self.n, self.capacity, l, u, y, z, w, row.0, column.0);
        remove_result(self, update, row.0, column.0)
    }

    // Solves with the matrix in place: rhs becomes the solution. The end of L is work, below the dimension. LengthMismatch where rhs has another length than
    // the dimension; then the first diagonal of U that is zero (Singular), infinite or NaN (NonFiniteDiagonal), by its index.
    pub fn solve_in_place(self, l: &mut [f64], u: &[f64], rhs: &mut [f64]) -> CallResult
        ensures { ManagedOutcome binary64 (calls.solve rhs.old) (lent_to_solve (state_of self) l.old u.now)
            (lent_to_solve (state_of result.state) l.new u.now) (solve_report result rhs.new) }
    {
        let answer = solve(self.n, self.capacity, l, u, rhs);
        CallResult {
            state: self,
            answer,
        }
    }

    // The same with the matrix transposed.
    pub fn solve_transpose_in_place(self, l: &mut [f64], u: &[f64], rhs: &mut [f64]) -> CallResult
        ensures { ManagedOutcome binary64 (calls.solve_transpose rhs.old) (lent_to_solve (state_of self) l.old u.now)
            (lent_to_solve (state_of result.state) l.new u.now) (solve_report result rhs.new) }
    {
        let answer = solve_transpose(self.n, self.capacity, l, u, rhs);
        CallResult {
            state: self,
            answer,
        }
    }
}
