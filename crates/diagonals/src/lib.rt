// The search for a diagonal of U that no solve can divide by.
#![tactic(auto)]

ghost use Rattle.std.specs.Prelude.{◌≡◌, Some};
ghost use Rattle.std.specs.Float.{binary64};
ghost use Rattle.numbers.specs.NumberForm.{ieee};
ghost use Rattle.machine.specs.Solves.{diagonals};
ghost use Rattle.matrices.specs.Tables.{table_u};
ghost use Rattle.diagonals.specs.Diagonal.{answer_of, text_of};

use matrices::packed_u::PackedU;
use numerics::real::is_finite;
use std::error::Error;
use std::fmt;

// The first diagonal that a solve can't divide by, by its index: it is zero, or infinite or NaN.
#[derive(Clone, Copy, Debug, PartialEq, Eq)]
pub enum BadDiagonal {
    Zero(usize),
    NonFinite(usize),
}

// In words, as the refusals 9 and 10.
impl fmt::Display for BadDiagonal {
    ghost output = { λ bad. Some (text_of bad) };

    fn fmt<W: fmt::Write>(&self, f: &mut fmt::Formatter<W>) -> fmt::Result {
        match self {
            BadDiagonal::Zero(i) => write!(f, "diagonal {i} of U is zero"),
            BadDiagonal::NonFinite(i) => write!(f, "diagonal {i} of U is infinite or NaN"),
        }
    }
}

impl Error for BadDiagonal {}

// The first active diagonal that is zero, infinite or NaN, with its index.
pub fn test_diagonal(u: PackedU<'_>) -> Result<(), BadDiagonal>
    ensures { answer_of result ≡ diagonals (ieee binary64) (table_u u.entry) u.entry.n }
{
    // A loop is the plainer form: it is left in two ways, each with an error of its own. A closure would answer an Option or a Result at each diagonal.
    for i in 0..u.n {
        let value = u.get(i, i);
        if value == 0.0 {
            return Err(BadDiagonal::Zero(i));
        }
        if !is_finite(value) {
            return Err(BadDiagonal::NonFinite(i));
        }
    }
    Ok(())
}
