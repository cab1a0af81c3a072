// What the zero-based calls refuse, and the update that the numbers of LUmod name.
#![tactic(auto)]

ghost use Rattle.std.specs.Prelude.{◌≡◌, ◌^◌, ◌<◌, IfSome, is_err, if◌then◌else◌};
ghost use Rattle.host_numbers.specs.Numbers.{size_of};
ghost use Rattle.zero_based_tests.specs.Refusals.{index_outside, passed_over, update_lacks_room, product_lacks_room, solve_lacks_room};
ghost use Rattle.zero_based_tests.specs.Update.{update_of, InRange};

use host_numbers::{index_below, size};

// Modes are 1 to this.
const LAST_MODE: usize = 4;

// An update of the factors, with the indices that it uses.
#[derive(Clone, Copy, Debug, PartialEq, Eq)]
pub enum Update {
    Push,
    ReplaceColumn(usize),
    ReplaceRow(usize),
    Remove { row: usize, column: usize },
}

// Whether a mode is `own` or 4, the modes that use the index, and the index is not 0 to n - 1.
pub fn index_outside(mode: usize, own: usize, index: i32, n: usize) -> bool
    ensures { result ≡ index_outside mode own index n }
{
    (mode == own || mode == 4) && index_below(index, n).is_none()
}

// What LUmod refuses with 11, for a mode and a dimension as sizes.
#[tactic(auto, unfolding(crate::specs::Refusals::passed_over))]
pub fn passed_over(mode: usize, n: usize, krow: i32, kcol: i32) -> bool
    ensures { result ≡ passed_over mode n krow kcol }
{
    n == 0
        || mode < 1
        || mode > LAST_MODE
        || index_outside(mode, 3, krow, n)
        || index_outside(mode, 2, kcol, n)
}

// The update that a mode and its indices name for a dimension as a size, none where LUmod refuses with 11.
#[tactic(auto, using(crate::proofs::Tests::passed))]
pub fn update_named(mode: i32, n: usize, krow: i32, kcol: i32) -> Option<Update>
    ensures named { result ≡ (if passed_over (size_of mode) n krow kcol then None
        else Some (update_of (size_of mode) (size_of krow) (size_of kcol))) }
    ensures in_range { IfSome result (λ update. InRange update n) }
{
    let operation = size(mode);
    if passed_over(operation, n, krow, kcol) {
        return None;
    }
    let row = size(krow);
    let column = size(kcol);
    Some(match operation {
        1 => Update::Push,
        2 => Update::ReplaceColumn(column),
        3 => Update::ReplaceRow(row),
        _ => Update::Remove { row, column },
    })
}

// Why a call is refused with 12: the dimension exceeds the stride, or a buffer is too short.
#[derive(Clone, Copy, Debug, PartialEq, Eq)]
pub struct LacksRoom;

// What LUmod refuses with 12, for the lengths of its buffers.
#[tactic(auto, unfolding(crate::specs::Refusals::update_lacks_room))]
pub fn update_room(
    n: usize,
    stride: usize,
    l: usize,
    u: usize,
    y: usize,
    z: usize,
    w: usize,
) -> Result<(), LacksRoom>
    requires { stride < 2 ^ 31 }
    ensures { is_err result ≡ update_lacks_room n stride l u y z w }
{
    if n > stride
        || l < stride * stride
        || u < stride * (stride + 1) / 2
        || y < n
        || z < n
        || w < n
    {
        return Err(LacksRoom);
    }
    Ok(())
}

// What Lprod refuses with 12.
#[tactic(auto, unfolding(crate::specs::Refusals::product_lacks_room))]
pub fn product_room(n: usize, stride: usize, l: usize, y: usize, z: usize) -> Result<(), LacksRoom>
    requires { stride < 2 ^ 31 }
    ensures { is_err result ≡ product_lacks_room n stride l y z }
{
    if n > stride || l < stride * stride || y < n || z < n {
        return Err(LacksRoom);
    }
    Ok(())
}

// What Usolve refuses with 12.
#[tactic(auto, unfolding(crate::specs::Refusals::solve_lacks_room))]
pub fn solve_room(n: usize, stride: usize, u: usize, y: usize) -> Result<(), LacksRoom>
    requires { stride < 2 ^ 31 }
    ensures { is_err result ≡ solve_lacks_room n stride u y }
{
    if n > stride || u < stride * (stride + 1) / 2 || y < n {
        return Err(LacksRoom);
    }
    Ok(())
}
