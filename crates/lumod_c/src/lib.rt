// The zero-based calls for a C host: numbers are i32, a slice is a pointer and a length. include/lumod.h is their header.
#![tactic(auto)]

ghost use Rattle.std.specs.Prelude.{◌≡◌};
ghost use Rattle.std.specs.Float.{binary64};
ghost use Rattle.numbers.specs.NumberForm.{ieee};
ghost use Rattle.numbers.specs.Tolerances.{zero_based_epsilon, zero_based_tiny};
ghost use Rattle.lumod_c.specs.declared.Refusal.TheVariants as refusal;
ghost use Rattle.lumod_c.specs.Outcome.{ProductOutcome, SolveOutcome, UpdateOutcome, refusal_value, outcome_number};

use factors::Factors;
use host_numbers::{result_number, size, stride};
use matrices::dense_l::DenseL;
use matrices::packed_u::PackedU;
use products::{l_product, l_product_transposed};
use substitutions::{back_substitute, forward_substitute};
use zero_based_tests::{LacksRoom, product_room, solve_room, update_named, update_room};
use zero_based_updates::perform;

// Why a call is refused: n, the mode or an index is out of range, or a buffer is too short.
#[derive(Clone, Copy, Debug, PartialEq, Eq)]
enum Refusal {
    PassedOver,
    LacksRoom,
}

impl From<LacksRoom> for Refusal {
    ghost from_gives = { λ _ r. r ≡ refusal.LacksRoom };

    fn from(_lacks_room: LacksRoom) -> Refusal {
        Refusal::LacksRoom
    }
}

impl From<Refusal> for u32 {
    ghost from_gives = { λ refused number. number ≡ refusal_value refused };

    fn from(refusal: Refusal) -> u32 {
        match refusal {
            Refusal::PassedOver => 11,
            Refusal::LacksRoom => 12,
        }
    }
}

// Updates the factors. Mode 1 appends a row and a column (n is the new dimension; row and diagonal in y, column in z), 2 replaces column kcol by z, 3 replaces
// row krow by y, 4 removes row krow and column kcol. 11 where n, mode or an index is out of range, 12 where a buffer is too short; then nothing is written.
#[unsafe(no_mangle)]
pub extern "C" fn LUmod(
    mode: i32,
    maxmod: i32,
    n: i32,
    krow: i32,
    kcol: i32,
    l: &mut [f64],
    u: &mut [f64],
    y: &mut [f64],
    z: &mut [f64],
    w: &mut [f64],
) -> u32
    ensures { UpdateOutcome (ieee binary64) zero_based_epsilon zero_based_tiny mode maxmod n krow kcol
        l.old u.old y.old z.old w.old l.new u.new y.new z.new w.new result }
{
    result_number(update(mode, maxmod, n, krow, kcol, l, u, y, z, w))
}

// Writes the L product of y to the first n of z: plain in mode 1, transposed in any other.
#[unsafe(no_mangle)]
pub extern "C" fn Lprod(mode: i32, maxmod: i32, n: i32, l: &[f64], y: &[f64], z: &mut [f64]) -> u32
    ensures { ProductOutcome (ieee binary64) mode maxmod n l.now y.now z.old z.new result }
{
    result_number(product(mode, maxmod, n, l, y, z))
}

// Solves with U on the first n of y: plain in mode 1, transposed in any other. No diagonal is tested.
#[unsafe(no_mangle)]
pub extern "C" fn Usolve(mode: i32, maxmod: i32, n: i32, u: &[f64], y: &mut [f64]) -> u32
    ensures { SolveOutcome (ieee binary64) mode maxmod n u.now y.old y.new result }
{
    result_number(solve(mode, maxmod, n, u, y))
}

// What LUmod does.
#[tactic(auto, using(zero_based_tests::proofs::Tests::update_room))]
fn update(
    mode: i32,
    maxmod: i32,
    n: i32,
    krow: i32,
    kcol: i32,
    l: &mut [f64],
    u: &mut [f64],
    y: &mut [f64],
    z: &mut [f64],
    w: &mut [f64],
) -> Result<(), Refusal>
    ensures { UpdateOutcome (ieee binary64) zero_based_epsilon zero_based_tiny mode maxmod n krow kcol
        l.old u.old y.old z.old w.old l.new u.new y.new z.new w.new (outcome_number result) }
{
    let dimension = size(n);
    let update = update_named(mode, dimension, krow, kcol).ok_or(Refusal::PassedOver)?;
    let capacity = stride(maxmod);
    update_room(
        dimension,
        capacity,
        l.len(),
        u.len(),
        y.len(),
        z.len(),
        w.len(),
    )?;
    let mut factors = Factors {
        n: dimension,
        stride: capacity,
        l,
        u,
    };
    perform(update, &mut factors, y, z, w);
    Ok(())
}

// What Lprod does. A mode is a number of the C interface: 1 is plain, any other transposed.
#[tactic(auto, using(zero_based_tests::proofs::Tests::product_room), unfolding(crate::specs::Outcome::product_of))]
fn product(
    mode: i32,
    maxmod: i32,
    n: i32,
    l: &[f64],
    y: &[f64],
    z: &mut [f64],
) -> Result<(), Refusal>
    ensures { ProductOutcome (ieee binary64) mode maxmod n l.now y.now z.old z.new (outcome_number result) }
{
    let dimension = size(n);
    if dimension == 0 {
        return Err(Refusal::PassedOver);
    }
    let capacity = stride(maxmod);
    product_room(dimension, capacity, l.len(), y.len(), z.len())?;
    let l = DenseL {
        n: dimension,
        stride: capacity,
        entries: l,
    };
    if mode == 1 {
        l_product(l, y, z);
    } else {
        l_product_transposed(l, y, z);
    }
    Ok(())
}

// What Usolve does. A mode is a number of the C interface: 1 is plain, any other transposed.
// It begins as Lprod does: a function for both beginnings would need a contract and answers longer than they are.
#[tactic(auto, using(zero_based_tests::proofs::Tests::solve_room), unfolding(crate::specs::Outcome::solve_of))]
fn solve(mode: i32, maxmod: i32, n: i32, u: &[f64], y: &mut [f64]) -> Result<(), Refusal>
    ensures { SolveOutcome (ieee binary64) mode maxmod n u.now y.old y.new (outcome_number result) }
{
    let dimension = size(n);
    if dimension == 0 {
        return Err(Refusal::PassedOver);
    }
    let capacity = stride(maxmod);
    solve_room(dimension, capacity, u.len(), y.len())?;
    let u = PackedU {
        n: dimension,
        stride: capacity,
        entries: u,
    };
    if mode == 1 {
        back_substitute(u, y);
    } else {
        forward_substitute(u, y);
    }
    Ok(())
}
