// L in lent storage, to be read.
ghost use Rattle.std.specs.Prelude.{◌≡◌, ◌*◌, ◌^◌, ◌≤◌, ◌<◌, length};
ghost use Rattle.std.specs.Float.{binary64};
ghost use Rattle.numbers.specs.NumberForm.{ieee};
ghost use Rattle.machine.specs.Tables.{tabulate};
ghost use Rattle.ranges.specs.Written.{Written};

use storage::l_index;

// L of dimension n in storage of a stride, which has room for it.
#[derive(Clone, Copy)]
pub struct DenseL<'a> {
    pub n: usize,
    pub stride: usize,
    pub entries: &'a [f64],
    pub ghost stride_fits: { stride < 2 ^ 32 },
    pub ghost dimension: { n ≤ stride },
    pub ghost long: { stride * stride ≤ length entries.now },
}

impl<'a> DenseL<'a> {
    ghost use Rattle.matrices.specs.Tables.{table_l};

    // L(row, column), active or not.
    pub fn get(self, row: usize, column: usize) -> f64
        requires { (row < self.stride) × (column < self.stride) }
        ensures { result ≡ table_l self.entry row column }
    {
        self.entries[l_index(row, column, self.stride)]
    }

    // The active entries of a row.
    pub fn row(self, row: usize) -> &'a [f64]
        requires { row < self.n }
        ensures entries { result.now ≡ tabulate self.entry.n (table_l self.entry row) }
        ensures long { length result.now ≡ self.entry.n }
    {
        let start = row * self.stride;
        &self.entries[start..start + self.n]
    }

    // values[i] takes L(i, column), for each of `values`.
    pub fn read_column(self, column: usize, values: &mut [f64])
        requires { (column < self.stride) × (length values.old ≤ self.stride) }
        ensures { Written (ieee binary64) (λ k. k) (length values.old) (λ i. table_l self.entry i column) values.old values.new }
    {
        for (i, value) in values.iter_mut().enumerate() {
            *value = self.get(i, column);
        }
    }
}
