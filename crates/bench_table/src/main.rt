// Document 01's bench table, computed by the code: a line for each row.
#![tactic(auto)]

ghost use Rattle.std.specs.Prelude.{◌<◌, ◌≤◌};

mod factor_rows;
mod shown;

use numerics::pair::elementary;
use numerics::tolerance::managed;
use shown::{Double, Refused};
use std::io;
use storage::{storage_lengths, u_index};

fn lengths(rt: &impl Print, capacity: usize) -> io::Result<()> {
    match storage_lengths(capacity) {
        Ok(found) => println!(rt; "c = {capacity}: L {}, U {}", found.l, found.u),
        Err(overflow) => println!(rt; "c = {capacity}: {}", Refused(overflow.into())),
    }
}

fn place(rt: &impl Print, row: usize, column: usize) -> io::Result<()>
    requires { (row ≤ column) × (column < 3) }
{
    println!(rt; "c = 3: U({row},{column}) at {}", u_index(row, column, 3))
}

// What the pair step makes of two numbers.
fn pair(rt: &impl Print, first: f64, second: f64) -> io::Result<()> {
    let mut x = first;
    let mut y = second;
    let transform = elementary(&mut x, &mut y, managed().tiny);
    let swap = if transform.swap { "swap" } else { "no swap" };
    print!(rt; "pair {}, {}", Double(first), Double(second))?;
    println!(rt;
        ": m {}, {swap}, x {}",
        Double(transform.multiplier),
        Double(x)
    )
}

fn main(rt: HostRuntime) -> io::Result<()> {
    for capacity in [0, 1, 4, 4294967295, 4294967296] {
        lengths(&rt, capacity)?;
    }
    // No loop, since it would lose what `place` requires.
    place(&rt, 1, 1)?;
    place(&rt, 1, 2)?;
    place(&rt, 2, 2)?;
    for (first, second) in [(4.0, 2.0), (1.0, -2.0), (3.0, -3.0), (f64::NAN, 0.0)] {
        pair(&rt, first, second)?;
    }
    factor_rows::p(&rt)?;
    factor_rows::solved(&rt)?;
    factor_rows::transpose_solved(&rt)?;
    factor_rows::column_replaced(&rt)?;
    factor_rows::row_replaced(&rt)?;
    factor_rows::removed(&rt)?;
    factor_rows::refused(&rt)
}
