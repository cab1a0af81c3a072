// The two managed solves on a dimension, a capacity and lent slices: each is tested, and then either refused, with nothing written, or carried out.
// They are two functions: one over the solve, as a parameter or as a trait, was proved, and took more lines of contracts and of proofs than it saved.
#![tactic(auto)]

ghost use Rattle.std.specs.Float.{binary64};
ghost use Rattle.machine.specs.Calls as calls;
ghost use Rattle.managed_solves.specs.Attempted.{Attempted};

use call_tests::test_solve;
use matrices::dense_l::DenseL;
use matrices::packed_u::PackedU;
use refusals::Refusal;

// Solves with the matrix: 7, then the diagonal of U.
#[tactic(auto, using(managed::proofs::Tested::solve_passed))]
pub fn solve(
    n: usize,
    capacity: usize,
    l: &mut [f64],
    u: &[f64],
    rhs: &mut [f64],
) -> Result<(), Refusal>
    ensures { Attempted binary64 (calls.solve rhs.old) n capacity result l.old u.now l.new rhs.new }
{
    test_solve(n, capacity, l.len(), u, rhs.len())?;
    let (entries, work) = l.split_at_mut(capacity * capacity);
    let l = DenseL {
        n,
        stride: capacity,
        entries,
    };
    let u = PackedU {
        n,
        stride: capacity,
        entries: u,
    };
    solves::solve(l, u, work, rhs);
    Ok(())
}

// The same with the matrix transposed.
#[tactic(auto, using(managed::proofs::Tested::solve_passed))]
pub fn solve_transpose(
    n: usize,
    capacity: usize,
    l: &mut [f64],
    u: &[f64],
    rhs: &mut [f64],
) -> Result<(), Refusal>
    ensures { Attempted binary64 (calls.solve_transpose rhs.old) n capacity result l.old u.now l.new rhs.new }
{
    test_solve(n, capacity, l.len(), u, rhs.len())?;
    let (entries, work) = l.split_at_mut(capacity * capacity);
    let l = DenseL {
        n,
        stride: capacity,
        entries,
    };
    let u = PackedU {
        n,
        stride: capacity,
        entries: u,
    };
    solves::solve_transpose(l, u, work, rhs);
    Ok(())
}
