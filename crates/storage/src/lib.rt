// Where the factors stand in lent storage: its lengths for a capacity, and the places of L, of the packed triangle U and of the solve work.
#![tactic(auto)]

ghost use Rattle.std.specs.Prelude.{◌≡◌, ◌<◌, ◌≤◌, ◌*◌, ◌^◌, Some, codes};
ghost use Rattle.storage.specs.Places.{l_length, u_length, l_index, u_index, work_index};
ghost use Rattle.storage.specs.Lengths.{answer_of, required_lengths};

use std::error::Error;
use std::fmt;

// How many doubles each buffer needs.
#[derive(Clone, Copy, Debug, PartialEq, Eq)]
pub struct StorageLengths {
    pub l: usize,
    pub u: usize,
}

// Why a capacity has no lengths: capacity + 1 or L's length exceeds usize.
#[derive(Clone, Copy, Debug, PartialEq, Eq)]
pub struct SizeOverflow;

impl fmt::Display for SizeOverflow {
    ghost output = { λ _. Some (codes "the lengths for the capacity exceed usize") };

    fn fmt<W: fmt::Write>(&self, f: &mut fmt::Formatter<W>) -> fmt::Result {
        f.write_str("the lengths for the capacity exceed usize")
    }
}

impl Error for SizeOverflow {}

// The lengths that a capacity needs: L's with the solve work at its end, and the packed triangle's. SizeOverflow where capacity + 1 or L's length
// exceeds usize.
#[tactic(auto, unfolding(crate::specs::Places::overflows))]
pub fn storage_lengths(capacity: usize) -> Result<StorageLengths, SizeOverflow>
    ensures { answer_of result ≡ required_lengths capacity }
{
    let next = capacity.checked_add(1).ok_or(SizeOverflow)?;
    let l = capacity.checked_mul(next).ok_or(SizeOverflow)?;
    Ok(StorageLengths { l, u: l / 2 })
}

// The place of L(row, column) in storage of that capacity, before the solve work.
pub fn l_index(row: usize, column: usize, capacity: usize) -> usize
    requires { (row < capacity) × ((column < capacity) × (capacity < 2 ^ 32)) }
    ensures { (result ≡ l_index capacity row column) × (result < capacity * capacity) }
{
    row * capacity + column
}

// The place of U(row, column), row <= column, in storage of that capacity.
#[tactic(auto, using(crate::proofs::Places::u_index_within), unfolding(crate::specs::Places::u_index))]
pub fn u_index(row: usize, column: usize, capacity: usize) -> usize
    requires { (row ≤ column) × ((column < capacity) × (capacity < 2 ^ 32)) }
    ensures { (result ≡ u_index capacity row column) × (result < u_length capacity) }
{
    // Row 0 stands apart: saturating_sub makes the loops over U's columns slower.
    if row == 0 {
        return column;
    }
    row * capacity - row * (row - 1) / 2 + column - row
}

// The place of entry `index` of the solve work, at the end of L.
pub fn work_index(index: usize, capacity: usize) -> usize
    requires { (index < capacity) × (capacity < 2 ^ 32) }
    ensures { (result ≡ work_index capacity index) × (result < l_length capacity) }
{
    capacity * capacity + index
}
