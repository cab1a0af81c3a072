// The packed triangle U in lent storage, to be read.
ghost use Rattle.std.specs.Prelude.{◌≡◌, ◌+◌, ◌-◌, ◌^◌, ◌≤◌, ◌<◌, length};
ghost use Rattle.std.specs.Float.{binary64};
ghost use Rattle.std.specs.Float.Ieee.{mul};
ghost use Rattle.numbers.specs.NumberForm.{ieee};
ghost use Rattle.machine.specs.Tables.{tabulate};
ghost use Rattle.machine.specs.Products.{entry, sum};
ghost use Rattle.storage.specs.Places.{u_length};
ghost use Rattle.ranges.specs.Written.{Written};

use storage::u_index;

// The packed triangle U of dimension n in storage of a stride, which has room for it.
#[derive(Clone, Copy)]
pub struct PackedU<'a> {
    pub n: usize,
    pub stride: usize,
    pub entries: &'a [f64],
    pub ghost stride_fits: { stride < 2 ^ 32 },
    pub ghost dimension: { n ≤ stride },
    pub ghost long: { u_length stride ≤ length entries.now },
}

impl<'a> PackedU<'a> {
    ghost use Rattle.matrices.specs.Tables.{table_u};

    // U(row, column), row <= column, active or not.
    pub fn get(self, row: usize, column: usize) -> f64
        requires { (row ≤ column) × (column < self.stride) }
        ensures { result ≡ table_u self.entry row column }
    {
        self.entries[u_index(row, column, self.stride)]
    }

    // The active entries of a row, from the diagonal on.
    pub fn row(self, row: usize) -> &'a [f64]
        requires { row < self.n }
        ensures entries { result.now ≡ tabulate (self.entry.n - row) (λ k. table_u self.entry row (row + k)) }
        ensures long { length result.now ≡ self.entry.n - row }
    {
        let diagonal = u_index(row, row, self.stride);
        &self.entries[diagonal..diagonal + (self.n - row)]
    }

    // values[i] takes U(i, column), for each of `values`, which go no further than the diagonal.
    pub fn read_column(self, column: usize, values: &mut [f64])
        requires { (column < self.stride) × (length values.old ≤ column + 1) }
        ensures { Written (ieee binary64) (λ k. k) (length values.old) (λ i. table_u self.entry i column) values.old values.new }
    {
        for (i, value) in values.iter_mut().enumerate() {
            *value = self.get(i, column);
        }
    }

    // The products U(i, column) * values[i], i from 0 up to column - 1, added to +0 in that order.
    pub fn dot_column(self, column: usize, values: &[f64]) -> f64
        requires { (column < self.stride) × (column ≤ length values.now) }
        ensures { result ≡ sum (ieee binary64) column (λ i. mul binary64 (table_u self.entry i column) (entry (ieee binary64) values.now i)) }
    {
        let mut sum = 0.0;
        for (i, value) in values[..column].iter().enumerate() {
            sum += self.get(i, column) * value;
        }
        sum
    }
}
