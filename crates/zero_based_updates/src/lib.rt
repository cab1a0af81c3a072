// The updates of the zero-based interface.
#![tactic(auto)]

ghost use Rattle.std.specs.Prelude.{◌≤◌, length};
ghost use Rattle.std.specs.Float.{binary64};
ghost use Rattle.numbers.specs.NumberForm.{ieee};
ghost use Rattle.numbers.specs.Tolerances.{zero_based_epsilon, zero_based_tiny};
ghost use Rattle.factors.specs.SameStorage.{SameStorage};
ghost use Rattle.zero_based_tests.specs.Update.{InRange};
ghost use Rattle.zero_based_updates.specs.UpdateDone.{UpdateDone};

use factors::Factors;
use numerics::tolerance::zero_based;
use update_column::replace_column;
use update_push::push;
use update_remove::remove;
use update_row::replace_row;
use zero_based_tests::Update;

// Carries out an update whose indices are below the dimension of the factors, which for a push is the new one.
pub fn perform(
    update: Update,
    factors: &mut Factors<'_>,
    y: &mut [f64],
    z: &mut [f64],
    w: &mut [f64],
)
    requires long { (factors.old.n ≤ length y.old) × (factors.old.n ≤ length z.old) × (factors.old.n ≤ length w.old) }
    requires in_range { InRange update factors.old.n }
    ensures done { UpdateDone (ieee binary64) zero_based_epsilon zero_based_tiny update factors.old.stride factors.old.n
        factors.old.l.now factors.old.u.now y.old z.old w.old factors.new.l.now factors.new.u.now y.new z.new w.new }
    ensures same_storage { SameStorage factors.old factors.new }
{
    let numerics = zero_based();
    match update {
        Update::Push => {
            push(factors, y, z, w, numerics);
        }
        Update::ReplaceColumn(column) => {
            replace_column(column, factors, y, z, w, numerics);
        }
        Update::ReplaceRow(row) => {
            replace_row(row, factors, y, z, w, numerics);
        }
        Update::Remove { row, column } => {
            remove(row, column, factors, y, z, w, numerics);
        }
    }
}
