// The test of the data that an update lends to the model: 23, with the first place where a value is infinite or NaN. It only reads.
#![tactic(auto)]

ghost use Rattle.std.specs.Prelude.{◌≡◌, ◌+◌, ◌^◌, ◌<◌, length};
ghost use Rattle.std.specs.Float.{binary64};
ghost use Rattle.numbers.specs.NumberForm.{ieee};
ghost use Rattle.machine.specs.Calls as calls;
ghost use Rattle.machine.specs.LentData.{first_non_finite, data_test};
ghost use Rattle.refusals.specs.Refusal.{test_of};

use numerics::real::is_finite;
use refusals::Refusal;

// Values whose places are counted from `first` on.
#[tactic(auto, using(machine::proofs::LentData::none_if_finite))]
pub fn test_values(values: &[f64], first: usize) -> Result<(), Refusal>
    requires { first + length values.now < 2 ^ 64 }
    ensures { test_of result ≡ first_non_finite (ieee binary64) first values.now }
{
    match values.iter().position(|value| !is_finite(*value)) {
        Some(i) => Err(Refusal::NonFiniteData(first + i)),
        None => Ok(()),
    }
}

// Those of a push: the row's, then the column's, then the diagonal's. Three searches: in Rust, one over a chain of the three takes almost twice as long at
// dimension 100.
#[tactic(auto, using(machine::proofs::LentData::push_in_parts), unfolding(machine::specs::LentData::first_non_finite))]
pub fn test_push_data(row: &[f64], column: &[f64], diagonal: f64) -> Result<(), Refusal>
    requires { length row.now + length column.now < 2 ^ 64 }
    ensures { test_of result ≡ data_test (ieee binary64) (calls.push row.now column.now diagonal) }
{
    test_values(row, 0)?;
    test_values(column, row.len())?;
    if !is_finite(diagonal) {
        return Err(Refusal::NonFiniteData(row.len() + column.len()));
    }
    Ok(())
}
