// The tests of the updates and the solves, each in its call's order: first what the call lends, 1, 2, 3, 13 and for an update 14, then its own. A test only
// reads. Each function is the tests of one call, of both replacements or of both solves; what they share is called, the tests of refusals.
#![tactic(auto)]

ghost use Rattle.std.specs.Prelude.{◌≡◌, ◌+◌, length};
ghost use Rattle.std.proofs.Math.Option.{none};
ghost use Rattle.std.specs.Float.{binary64};
ghost use Rattle.numbers.specs.NumberForm.{ieee};
ghost use Rattle.machine.specs.Solves.{diagonals};
ghost use Rattle.machine.specs.Calls.{◌or_else◌};
ghost use Rattle.machine.specs.Calls as calls;
ghost use Rattle.machine.specs.LentData.{first_non_finite, data_test};
ghost use Rattle.machine.specs.Machine.{push_tests, replacement_tests, remove_tests, rhs_test};
ghost use Rattle.storage.specs.Views.{view_u};
ghost use Rattle.managed.specs.Refusals.{capacity_test, update_tests, solve_tests};
ghost use Rattle.refusals.specs.Refusal.{refusal_of, test_of};

use lent_data::{test_push_data, test_values};
use managed::LentLengths;
use matrices::packed_u::PackedU;
use refusals::{Refusal, test_diagonals, test_lent, test_storage};

// Push: 4, 7, 23, 8.
pub fn test_push(
    n: usize,
    capacity: usize,
    lent: LentLengths,
    row: &[f64],
    column: &[f64],
    diagonal: f64,
) -> Result<(), Refusal>
    ensures { test_of result ≡ update_tests n capacity lent (capacity_test n capacity) (push_tests n (length row.now) (length column.now))
        (data_test (ieee binary64) (calls.push row.now column.now diagonal)) (n + 1) }
{
    test_lent(n, capacity, lent)?;
    if n == capacity {
        return Err(Refusal::CapacityExceeded);
    }
    if row.len() != n || column.len() != n {
        return Err(Refusal::LengthMismatch);
    }
    test_push_data(row, column, diagonal)?;
    if lent.y <= n {
        return Err(Refusal::InsufficientWorkspace);
    }
    Ok(())
}

// Replace row or column: 5 or 6, which is `outside`, then 7, 23, 8.
pub fn test_replacement(
    n: usize,
    capacity: usize,
    lent: LentLengths,
    index: usize,
    outside: Refusal,
    values: &[f64],
) -> Result<(), Refusal>
    ensures { test_of result ≡ update_tests n capacity lent none (replacement_tests n index (refusal_of outside) (length values.now))
        (first_non_finite (ieee binary64) 0 values.now) n }
{
    test_lent(n, capacity, lent)?;
    if index >= n {
        return Err(outside);
    }
    if values.len() != n {
        return Err(Refusal::LengthMismatch);
    }
    test_values(values, 0)?;
    if lent.y < n {
        return Err(Refusal::InsufficientWorkspace);
    }
    Ok(())
}

// Remove: 5, 6, 8.
pub fn test_remove(
    n: usize,
    capacity: usize,
    lent: LentLengths,
    row: usize,
    column: usize,
) -> Result<(), Refusal>
    ensures { test_of result ≡ update_tests n capacity lent none (remove_tests n row column) none n }
{
    test_lent(n, capacity, lent)?;
    if row >= n {
        return Err(Refusal::RowOutOfBounds);
    }
    if column >= n {
        return Err(Refusal::ColumnOutOfBounds);
    }
    if n > lent.y {
        return Err(Refusal::InsufficientWorkspace);
    }
    Ok(())
}

// Both solves, with the lengths of L and of the right-hand side: 1, 2, 3, 13, 7, then the diagonal upward.
#[tactic(auto, using(managed::proofs::Refusals::storage_passed))]
pub fn test_solve(n: usize, capacity: usize, l: usize, u: &[f64], rhs: usize) -> Result<(), Refusal>
    ensures { test_of result ≡ solve_tests n capacity l (length u.now)
        (rhs_test n rhs or_else diagonals (ieee binary64) (view_u (ieee binary64) capacity u.now) n) }
{
    test_storage(n, capacity, l, u.len())?;
    if rhs != n {
        return Err(Refusal::LengthMismatch);
    }
    test_diagonals(PackedU {
        n,
        stride: capacity,
        entries: u,
    })
}
