// Comparing bit for bit, with all NaNs alike.
use crate::sample::{Word, double};

fn same(x: f64, y: f64) -> bool {
    if x.is_nan() || y.is_nan() {
        return x.is_nan() && y.is_nan();
    }
    x.to_bits() == y.to_bits()
}

// Whether two vectors of one length differ.
pub fn differ(a: &[f64], b: &[f64]) -> bool {
    a.iter().zip(b).any(|(x, y)| !same(*x, *y))
}

// Whether a vector differs from the words that it is stored as, as far as they go.
pub fn differs_from(vector: &[f64], words: &[Word]) -> bool {
    vector
        .iter()
        .zip(words)
        .any(|(x, word)| !same(*x, double(u64::from_le_bytes(*word))))
}
