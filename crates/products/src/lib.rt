// The L product of a vector, plain and transposed.
#![tactic(auto)]

ghost use Rattle.std.specs.Prelude.{◌≡◌, [], ◌∷◌, ◌+◌, ◌≤◌, length};
ghost use Rattle.std.specs.Float.{binary64};
ghost use Rattle.numbers.specs.NumberForm.{ieee};
ghost use Rattle.machine.specs.Products.{entry, product, product_transposed};
ghost use Rattle.ranges.specs.Written.{from, Written};
ghost use Rattle.ranges.specs.Sums.{dot_product};
ghost use Rattle.matrices.specs.Tables.{table_l};

use matrices::dense_l::DenseL;
use ranges::{add_multiple, copy, dot};

// For each of four rows of one length the products with the entries of `input`, added to +0 in their order. Each row has a sum of its own, so that four
// additions can be under way at once. Four names and not an array of rows: a loop over it would be a loop within the loop, and the sums stay in registers.
fn four_dots(a: &[f64], b: &[f64], c: &[f64], d: &[f64], input: &[f64]) -> [f64; 4]
    requires { (length b.now ≡ length a.now) × ((length c.now ≡ length a.now) × ((length d.now ≡ length a.now) × (length a.now ≤ length input.now))) }
    ensures { result ≡ dot_product (ieee binary64) a.now input.now ∷ dot_product (ieee binary64) b.now input.now
        ∷ dot_product (ieee binary64) c.now input.now ∷ dot_product (ieee binary64) d.now input.now ∷ [] }
{
    let mut first = 0.0;
    let mut second = 0.0;
    let mut third = 0.0;
    let mut fourth = 0.0;
    for k in 0..a.len() {
        let value = input[k];
        first += a[k] * value;
        second += b[k] * value;
        third += c[k] * value;
        fourth += d[k] * value;
    }
    [first, second, third, fourth]
}

// The entries i to i + 3 of the product.
fn four_products(i: usize, l: DenseL<'_>, input: &[f64], output: &mut [f64])
    requires { (l.n ≤ length input.now) × ((l.n ≤ length output.old) × (i + 4 ≤ l.n)) }
    ensures { Written (ieee binary64) (from i) 4 (λ k. product (ieee binary64) l.entry.n (table_l l.entry) (entry (ieee binary64) input.now) (i + k))
        output.old output.new }
{
    let sums = four_dots(l.row(i), l.row(i + 1), l.row(i + 2), l.row(i + 3), input);
    copy(&mut output[i..i + 4], &sums);
}

// As many entries of the product as come in fours; answers how many. Not by step_by, for which the loop needs a measure of its own.
fn products_by_fours(l: DenseL<'_>, input: &[f64], output: &mut [f64]) -> usize
    requires { (l.n ≤ length input.now) × (l.n ≤ length output.old) }
    ensures { (result ≤ l.entry.n) × Written (ieee binary64) (λ i. i) result
        (product (ieee binary64) l.entry.n (table_l l.entry) (entry (ieee binary64) input.now)) output.old output.new }
{
    for four in 0..l.n / 4 {
        let i = 4 * four;
        four_products(i, l, input, output);
    }
    l.n - l.n % 4
}

// output[i] takes the sum of L(i, j) * input[j], j from 0 up to n - 1, for i below n.
pub fn l_product(l: DenseL<'_>, input: &[f64], output: &mut [f64])
    requires { (l.n ≤ length input.now) × (l.n ≤ length output.old) }
    ensures { Written (ieee binary64) (λ i. i) l.entry.n (product (ieee binary64) l.entry.n (table_l l.entry) (entry (ieee binary64) input.now))
        output.old output.new }
{
    let done = products_by_fours(l, input, output);
    // By number: a row of L and an entry of the output.
    for i in done..l.n {
        output[i] = dot(l.row(i), input);
    }
}

// output[i] takes the sum of L(j, i) * input[j], j from 0 up to n - 1, for i below n. L is read row by row: each sum still grows in the order of j.
pub fn l_product_transposed(l: DenseL<'_>, input: &[f64], output: &mut [f64])
    requires { (l.n ≤ length input.now) × (l.n ≤ length output.old) }
    ensures { Written (ieee binary64) (λ i. i) l.entry.n (product_transposed (ieee binary64) l.entry.n (table_l l.entry) (entry (ieee binary64) input.now))
        output.old output.new }
{
    output[..l.n].fill(0.0);
    for (j, entry) in input[..l.n].iter().enumerate() {
        add_multiple(output, l.row(j), *entry);
    }
}
