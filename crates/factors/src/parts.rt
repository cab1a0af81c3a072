// L and U to be read, and the parts that are written at once: columns and a row of each.

ghost use Rattle.std.specs.Prelude.{◌≡◌, ◌+◌, ◌≤◌, ◌<◌, length};
ghost use Rattle.std.specs.Float.{binary64};
ghost use Rattle.numbers.specs.NumberForm.{ieee};
ghost use Rattle.machine.specs.Products.{entry};
ghost use Rattle.machine.specs.Updates.{with_unit_row};
ghost use Rattle.storage.specs.Places.{l_index, u_index};
ghost use Rattle.storage.specs.Views.{view_l};
ghost use Rattle.factors.specs.PartsWritten.{LWritten, LRewritten, UWritten};

use crate::Factors;
use matrices::dense_l::DenseL;
use matrices::packed_u::PackedU;
use ranges::copy;
use storage::{l_index, u_index};

impl Factors<'_> {
    // L, to be read.
    pub fn l(&self) -> DenseL<'_>
        ensures dimension { result.n ≡ self.now.n }
        ensures stride { result.stride ≡ self.now.stride }
        ensures entries { result.entries.now ≡ self.now.l.now }
    {
        DenseL {
            n: self.n,
            stride: self.stride,
            entries: self.l,
        }
    }

    // U, to be read.
    pub fn u(&self) -> PackedU<'_>
        ensures dimension { result.n ≡ self.now.n }
        ensures stride { result.stride ≡ self.now.stride }
        ensures entries { result.entries.now ≡ self.now.u.now }
    {
        PackedU {
            n: self.n,
            stride: self.stride,
            entries: self.u,
        }
    }

    // L(i, column) becomes +0 for i below rows.
    pub fn clear_l_column(&mut self, column: usize, rows: usize)
        requires { (column < self.old.stride) × (rows ≤ self.old.stride) }
        ensures { LWritten (λ i. l_index self.old.stride i column) rows (λ i. (ieee binary64).zero) self.old self.new }
    {
        // By number: the places of a column lie the stride apart.
        for i in 0..rows {
            self.l[l_index(i, column, self.stride)] = 0.0;
        }
    }

    // L(i, target) takes L(i, source) for i below n.
    pub fn copy_l_column(&mut self, source: usize, target: usize)
        requires { (source < self.old.stride) × (target < self.old.stride) }
        ensures { LWritten (λ i. l_index self.old.stride i target) self.old.n
            (λ i. view_l (ieee binary64) self.old.stride self.old.l.now i source) self.old self.new }
    {
        // By number, as its two columns lie in one buffer.
        for i in 0..self.n {
            self.l[l_index(i, target, self.stride)] = self.l[l_index(i, source, self.stride)];
        }
    }

    // L's row `row` becomes +0 with 1 at `column`, in the first n columns; the others stay.
    pub fn set_unit_row(&mut self, row: usize, column: usize)
        requires { (row < self.old.n) × (column < self.old.n) }
        ensures { LRewritten (with_unit_row (ieee binary64) row column) self.old self.new }
    {
        let start = row * self.stride;
        self.l[start..start + self.n].fill(0.0);
        self.l[start + column] = 1.0;
    }

    // U(row, row + k) takes values[k], for each of `values`, which end before the dimension or with it.
    pub fn write_u_row(&mut self, row: usize, values: &[f64])
        requires { (row < self.old.n) × (row + length values.now ≤ self.old.n) }
        ensures { UWritten (λ k. u_index self.old.stride row (row + k)) (length values.now) (entry (ieee binary64) values.now) self.old self.new }
    {
        let diagonal = u_index(row, row, self.stride);
        copy(&mut self.u[diagonal..diagonal + values.len()], values);
    }

    // U(i, column) takes values[i], for each of `values`, which go no further than the diagonal.
    pub fn write_u_column(&mut self, column: usize, values: &[f64])
        requires { (column < self.old.stride) × (length values.now ≤ column + 1) }
        ensures { UWritten (λ i. u_index self.old.stride i column) (length values.now) (entry (ieee binary64) values.now) self.old self.new }
    {
        for (i, value) in values.iter().enumerate() {
            self.u[u_index(i, column, self.stride)] = *value;
        }
    }
}
