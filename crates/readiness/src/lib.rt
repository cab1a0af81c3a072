// Whether the factors are ready for solves, on a dimension, a capacity and lent slices. It only reads.
#![tactic(auto)]

ghost use Rattle.std.specs.Prelude.{◌≡◌};
ghost use Rattle.std.specs.Float.{binary64};
ghost use Rattle.numbers.specs.NumberForm.{ieee};
ghost use Rattle.managed.specs.StorageAnswers.{ready_answer};
ghost use Rattle.readiness.specs.Readiness.{readiness_of};

use finite_factors::finite_factors;
use matrices::dense_l::DenseL;
use matrices::packed_u::PackedU;
use refusals::{Refusal, test_diagonals, test_storage};

// The storage's refusal, or whether no active diagonal of U is zero, infinite or NaN and every active entry of L and U is finite. The diagonals, which are few,
// are tested first, as a solve tests them.
#[tactic(auto, using(managed::proofs::Refusals::storage_passed))]
pub fn ready(n: usize, capacity: usize, l: &[f64], u: &[f64]) -> Result<bool, Refusal>
    ensures { readiness_of result ≡ ready_answer (ieee binary64) n capacity l.now u.now }
{
    test_storage(n, capacity, l.len(), u.len())?;
    let u = PackedU {
        n,
        stride: capacity,
        entries: u,
    };
    let l = DenseL {
        n,
        stride: capacity,
        entries: l,
    };
    Ok(test_diagonals(u).is_ok() && finite_factors(l, u))
}
