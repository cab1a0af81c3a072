// The refusals by their names, and the tests that calls share: of storage, of workspaces, of the diagonal. A test only reads.
#![tactic(auto)]

ghost use Rattle.std.specs.Prelude.{◌≡◌, true, Err, Some};
ghost use Rattle.std.specs.Float.{binary64};
ghost use Rattle.numbers.specs.NumberForm.{ieee};
ghost use Rattle.machine.specs.Calls.{number_of};
ghost use Rattle.machine.specs.Solves.{diagonals};
ghost use Rattle.matrices.specs.Tables.{table_u};
ghost use Rattle.diagonals.specs.Diagonal as diagonal;
ghost use Rattle.managed.specs.Refusals.{size_tests, storage_tests, lent_tests};
ghost use Rattle.refusals.specs.declared.Refusal.TheVariants as refusal;
ghost use Rattle.refusals.specs.Refusal.{refusal_of, index_of, test_of};
ghost use Rattle.refusals.specs.Text.{text_of};

use diagonals::{BadDiagonal, test_diagonal};
use managed::LentLengths;
use matrices::packed_u::PackedU;
use std::error::Error;
use std::fmt;
use storage::{SizeOverflow, storage_lengths};

// Why a managed call is refused: document 01's 1 to 10 with document 02's 13, 14 and 23, in the order in which they are tested. The Rust's InsufficientStorage
// is three of them: InsufficientL, InsufficientU and UnequalWorkspaces.
#[derive(Clone, Copy, Debug, PartialEq, Eq)]
pub enum Refusal {
    InvalidDimension,
    SizeOverflow,
    InsufficientL,
    InsufficientU,
    UnequalWorkspaces,
    CapacityExceeded,
    RowOutOfBounds,
    ColumnOutOfBounds,
    LengthMismatch,
    NonFiniteData(usize),
    InsufficientWorkspace,
    Singular(usize),
    NonFiniteDiagonal(usize),
}

impl Refusal {
    // The diagonal, or the place in the data, that it names, where it names one.
    pub fn index(self) -> Option<usize>
        ensures { result ≡ index_of (refusal_of self) }
    {
        match self {
            Refusal::NonFiniteData(i) | Refusal::Singular(i) | Refusal::NonFiniteDiagonal(i) => {
                Some(i)
            }
            _ => None,
        }
    }
}

// In words, with its index or place where it has one: a bad diagonal in those of its own error.
impl fmt::Display for Refusal {
    ghost output = { λ refused. Some (text_of refused) };

    fn fmt<W: fmt::Write>(&self, f: &mut fmt::Formatter<W>) -> fmt::Result {
        match self {
            Refusal::InvalidDimension => f.write_str("the dimension exceeds the capacity"),
            Refusal::SizeOverflow => f.write_str("the lengths for the capacity exceed usize"),
            Refusal::InsufficientL => f.write_str("L is too short"),
            Refusal::InsufficientU => f.write_str("U is too short"),
            Refusal::UnequalWorkspaces => f.write_str("the workspaces have unequal lengths"),
            Refusal::CapacityExceeded => f.write_str("the dimension is the capacity already"),
            Refusal::RowOutOfBounds => f.write_str("there is no such row"),
            Refusal::ColumnOutOfBounds => f.write_str("there is no such column"),
            Refusal::LengthMismatch => f.write_str("lent data are not as long as the dimension"),
            Refusal::NonFiniteData(place) => write!(
                f,
                "the value at place {place} is infinite or NaN"
            ),
            Refusal::InsufficientWorkspace => f.write_str("the workspaces are too short"),
            Refusal::Singular(i) => write!(f, "{}", BadDiagonal::Zero(*i)),
            Refusal::NonFiniteDiagonal(i) => write!(f, "{}", BadDiagonal::NonFinite(*i)),
        }
    }
}

impl Error for Refusal {}

impl From<SizeOverflow> for Refusal {
    ghost from_gives = { λ _ r. r ≡ refusal.SizeOverflow };

    fn from(_overflow: SizeOverflow) -> Refusal {
        Refusal::SizeOverflow
    }
}

impl From<BadDiagonal> for Refusal {
    ghost from_gives = { λ bad r. test_of (Err r) ≡ diagonal.answer_of (Err bad) };

    fn from(bad: BadDiagonal) -> Refusal {
        match bad {
            BadDiagonal::Zero(i) => Refusal::Singular(i),
            BadDiagonal::NonFinite(i) => Refusal::NonFiniteDiagonal(i),
        }
    }
}

// Its number in document 01's table, with those that document 02 adds.
impl From<Refusal> for u32 {
    ghost from_gives = { λ refused number. number ≡ number_of (refusal_of refused) };

    fn from(refusal: Refusal) -> u32 {
        match refusal {
            Refusal::InvalidDimension => 1,
            Refusal::SizeOverflow => 2,
            Refusal::InsufficientL => 3,
            Refusal::InsufficientU => 13,
            Refusal::UnequalWorkspaces => 14,
            Refusal::CapacityExceeded => 4,
            Refusal::RowOutOfBounds => 5,
            Refusal::ColumnOutOfBounds => 6,
            Refusal::LengthMismatch => 7,
            Refusal::NonFiniteData(_) => 23,
            Refusal::InsufficientWorkspace => 8,
            Refusal::Singular(_) => 9,
            Refusal::NonFiniteDiagonal(_) => 10,
        }
    }
}

// 2 for a capacity, 3 for the length of L and 13 for that of U.
#[tactic(auto, unfolding(managed::specs::Refusals::size_tests))]
pub fn test_sizes(capacity: usize, l: usize, u: usize) -> Result<(), Refusal>
    ensures { test_of result ≡ size_tests capacity l u }
{
    let lengths = storage_lengths(capacity)?;
    if l < lengths.l {
        return Err(Refusal::InsufficientL);
    }
    if u < lengths.u {
        return Err(Refusal::InsufficientU);
    }
    Ok(())
}

// 1 for the dimension, then 2, 3 and 13.
#[tactic(auto, unfolding(managed::specs::Refusals::dimension_test))]
pub fn test_storage(n: usize, capacity: usize, l: usize, u: usize) -> Result<(), Refusal>
    ensures { test_of result ≡ storage_tests n capacity l u }
{
    if n > capacity {
        return Err(Refusal::InvalidDimension);
    }
    test_sizes(capacity, l, u)
}

// What an update lends: 1, 2, 3 and 13 for its storage, then 14 for its workspaces.
#[tactic(auto, unfolding(managed::specs::Refusals::workspace_tests))]
pub fn test_lent(n: usize, capacity: usize, lent: LentLengths) -> Result<(), Refusal>
    ensures { test_of result ≡ lent_tests true n capacity lent }
{
    test_storage(n, capacity, lent.l, lent.u)?;
    if lent.y != lent.z || lent.y != lent.w {
        return Err(Refusal::UnequalWorkspaces);
    }
    Ok(())
}

// 9 and 10: the diagonal of U upward, in storage that passed its tests.
pub fn test_diagonals(u: PackedU<'_>) -> Result<(), Refusal>
    ensures { test_of result ≡ diagonals (ieee binary64) (table_u u.entry) u.entry.n }
{
    test_diagonal(u)?;
    Ok(())
}
