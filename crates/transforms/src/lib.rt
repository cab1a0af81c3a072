// A pair step applied to further pairs: of two rows of one slice, and of two slices.
#![tactic(auto)]

ghost use Rattle.std.specs.Prelude.{◌≡◌, ◌⊎◌, ◌+◌, ◌≤◌, ◌<◌, length};
ghost use Rattle.std.specs.Float.{binary64};
ghost use Rattle.numbers.specs.NumberForm.{ieee};
ghost use Rattle.transforms.specs.RowsTransformed.{RowsTransformed, SlicesTransformed};

use numerics::pair::{Transform, apply_pair};

// Applies a transform to the pairs xs[k] (first), ys[k] (second). Each pair is held in locals: where pairs are exchanged in place, compiled code takes half
// as many of them at a time.
pub fn transform_slices(xs: &mut [f64], ys: &mut [f64], transform: Transform)
    requires { length xs.old ≡ length ys.old }
    ensures { SlicesTransformed (ieee binary64) transform.swap transform.multiplier xs.old ys.old xs.new ys.new }
{
    for (k, x) in xs.iter_mut().enumerate() {
        let mut first = *x;
        let mut second = ys[k];
        apply_pair(&mut first, &mut second, transform);
        *x = first;
        ys[k] = second;
    }
}

// Applies a transform to the pairs matrix[x + k] (first), matrix[y + k] (second) for k below count. By offsets: two parts of one slice cannot be lent at once.
// The two rows have no place in common, and the slice is cut where the later one begins, so that they are parts of two slices.
pub fn transform_rows(matrix: &mut [f64], x: usize, y: usize, count: usize, transform: Transform)
    requires { ((x + count ≤ y) ⊎ (y + count ≤ x)) × ((x + count ≤ length matrix.old) × (y + count ≤ length matrix.old)) }
    ensures { RowsTransformed (ieee binary64) transform.swap transform.multiplier x y count matrix.old matrix.new }
{
    if x < y {
        let (before, after) = matrix.split_at_mut(y);
        transform_slices(&mut before[x..x + count], &mut after[..count], transform);
    } else {
        let (before, after) = matrix.split_at_mut(x);
        transform_slices(&mut after[..count], &mut before[y..y + count], transform);
    }
}
