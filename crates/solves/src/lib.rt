// Solves with the factors, in place.
#![tactic(auto)]

ghost use Rattle.std.specs.Prelude.{◌≡◌, ◌≤◌, length};
ghost use Rattle.std.specs.Float.{binary64};
ghost use Rattle.numbers.specs.NumberForm.{ieee};
ghost use Rattle.machine.specs.Solves.{solution_vector, solution_transpose_vector};
ghost use Rattle.matrices.specs.Tables.{state_held};
ghost use Rattle.solves.specs.InPlace.{WrittenInPlace};

use matrices::dense_l::DenseL;
use matrices::packed_u::PackedU;
use products::{l_product, l_product_transposed};
use ranges::copy;
use substitutions::{back_substitute, forward_substitute};

// Solves with A: the L product of b, which the work takes, then back substitution. No diagonal is tested.
pub fn solve(l: DenseL<'_>, u: PackedU<'_>, work: &mut [f64], b: &mut [f64])
    requires { (u.n ≡ l.n) × ((l.n ≤ length work.old) × (l.n ≤ length b.old)) }
    ensures { WrittenInPlace (ieee binary64) l.entry.n (solution_vector (ieee binary64) (state_held l.entry u.entry) b.old) work.old b.old work.new b.new }
{
    copy(&mut work[..l.n], &b[..l.n]);
    l_product(l, work, b);
    back_substitute(u, b);
}

// Solves with A transposed: forward substitution, then the transposed L product of what it left, which the work takes. No diagonal is tested.
pub fn solve_transpose(l: DenseL<'_>, u: PackedU<'_>, work: &mut [f64], b: &mut [f64])
    requires { (u.n ≡ l.n) × ((l.n ≤ length work.old) × (l.n ≤ length b.old)) }
    ensures { WrittenInPlace (ieee binary64) l.entry.n (solution_transpose_vector (ieee binary64) (state_held l.entry u.entry) b.old)
        work.old b.old work.new b.new }
{
    forward_substitute(u, b);
    copy(&mut work[..l.n], &b[..l.n]);
    l_product_transposed(l, work, b);
}
