// The rows of the table on factors, by the managed calls at capacity 2. L and U are printed entry by entry, U by rows of the triangle.
use crate::shown::{Double, Pair, Refused};
use api::{CallResult, ColumnIndex, LuMod, Removal, RowIndex, UpdateResult};
use refusals::Refusal;
use std::{fmt, io};

// The state, L and U, and the workspaces, which are three fields: the check does not cover them lent out of one array.
#[derive(Clone, Copy)]
struct Factors {
    state: LuMod,
    l: [f64; 6],
    u: [f64; 3],
    y: [f64; 2],
    z: [f64; 2],
    w: [f64; 2],
}

impl Factors {
    fn empty() -> Factors {
        Factors {
            state: LuMod {
                n: 0,
                capacity: 2,
                counter: 0,
            },
            l: [0.0; 6],
            u: [0.0; 3],
            y: [0.0; 2],
            z: [0.0; 2],
            w: [0.0; 2],
        }
    }

    // The table's P: from empty, push d 2, then push row (4), column (6), d 1.
    fn p() -> Factors {
        let mut p = Factors::empty();
        p.push(&[], &[], 2.0);
        p.push(&[4.0], &[6.0], 1.0);
        p
    }

    // Makes the update that `call` makes of the state, L, U and the workspaces, and stores the state that it hands back.
    fn update<T: Copy, F>(&mut self, call: F) -> UpdateResult<T>
    where
        F: FnOnce(
            LuMod,
            &mut [f64],
            &mut [f64],
            &mut [f64],
            &mut [f64],
            &mut [f64],
        ) -> UpdateResult<T>,
        requires { F.IsAlwaysCallable call }
    {
        let updated = call(
            self.state,
            &mut self.l,
            &mut self.u,
            &mut self.y,
            &mut self.z,
            &mut self.w,
        );
        self.state = updated.state;
        updated
    }

    // The counter of the state is what the pushes made so far.
    fn push(&mut self, row: &[f64], column: &[f64], diagonal: f64) {
        self.update(|state, l, u, y, z, w| state.push(l, u, y, z, w, row, column, diagonal));
    }
}

impl fmt::Display for Factors {
    fn fmt<W: fmt::Write>(&self, f: &mut fmt::Formatter<W>) -> fmt::Result {
        let [l0, l1, l2, l3, _, _] = self.l;
        let [u0, u1, u2] = self.u;
        write!(f, "L {}, {}", Pair([l0, l1]), Pair([l2, l3]))?;
        write!(f, "; U {}, {}, {}", Double(u0), Double(u1), Double(u2))
    }
}

pub fn p(rt: &impl Print) -> io::Result<()> {
    let p = Factors::p();
    println!(rt; "P: {p}; pair steps {}", p.state.counter)
}

// Prints the refusal of a solve, where it was refused, before the right-hand side that it leaves.
fn refusal(rt: &impl Print, answer: Result<(), Refusal>) -> io::Result<()> {
    if let Err(refusal) = answer {
        print!(rt; "{}, ", Refused(refusal))?;
    }
    Ok(())
}

// Prints the solution that `call` finds for P and a right-hand side.
fn solution<F>(rt: &impl Print, name: &str, given: [f64; 2], call: F) -> io::Result<()>
where
    F: FnOnce(LuMod, &mut [f64], &[f64], &mut [f64]) -> CallResult,
    requires { F.IsAlwaysCallable call }
{
    let mut p = Factors::p();
    let mut rhs = given;
    let solved = call(p.state, &mut p.l, &p.u, &mut rhs);
    print!(rt; "P, {name} {}: ", Pair(given))?;
    refusal(rt, solved.answer)?;
    println!(rt; "{}", Pair(rhs))
}

pub fn solved(rt: &impl Print) -> io::Result<()> {
    solution(rt, "solve", [8.0, 5.0], LuMod::solve_in_place)
}

pub fn transpose_solved(rt: &impl Print) -> io::Result<()> {
    solution(
        rt,
        "transpose solve",
        [6.0, 7.0],
        LuMod::solve_transpose_in_place,
    )
}

// Prints P after `call` has replaced its row or column 0 by values.
fn replacement<F>(rt: &impl Print, name: &str, values: [f64; 2], call: F) -> io::Result<()>
where
    F: FnOnce(&mut Factors, &[f64]) -> UpdateResult<()>,
    requires { F.IsAlwaysCallable call }
{
    let mut p = Factors::p();
    let replaced = call(&mut p, &values);
    println!(rt;
        "P, replace {name} 0 by {}: {p}; pair steps {}",
        Pair(values),
        replaced.steps
    )
}

pub fn column_replaced(rt: &impl Print) -> io::Result<()> {
    replacement(rt, "column", [1.0, 8.0], |p, values| {
        p.update(|state, l, u, y, z, w| {
            state.replace_column(l, u, y, z, w, ColumnIndex(0), values)
        })
    })
}

pub fn row_replaced(rt: &impl Print) -> io::Result<()> {
    replacement(rt, "row", [1.0, 1.0], |p, values| {
        p.update(|state, l, u, y, z, w| state.replace_row(l, u, y, z, w, RowIndex(0), values))
    })
}

fn article<T: Copy>(moved: Option<T>) -> &'static str {
    moved.map_or("no", |_| "a")
}

// Prints what a remove moved.
fn moved(rt: &impl Print, removal: Removal) -> io::Result<()> {
    let row = article(removal.moved_row);
    let column = article(removal.moved_column);
    print!(rt; ", {row} row moved, {column} column moved")
}

pub fn removed(rt: &impl Print) -> io::Result<()> {
    let mut p = Factors::p();
    let removed = p.update(|state, l, u, y, z, w| {
        state.remove(l, u, y, z, w, RowIndex(1), ColumnIndex(1))
    });
    print!(rt;
        "P, remove 1, 1: L {}, U {}",
        Double(p.l[0]),
        Double(p.u[0])
    )?;
    match removed.answer {
        Ok(removal) => moved(rt, removal)?,
        Err(refusal) => print!(rt; "{}", Refused(refusal))?,
    }
    println!(rt; "; pair steps {}", removed.steps)
}

// Empty, push d -0, solve (5): refused, and (5) stands.
pub fn refused(rt: &impl Print) -> io::Result<()> {
    let mut factors = Factors::empty();
    factors.push(&[], &[], -0.0);
    let mut rhs = [5.0];
    let solved = factors
        .state
        .solve_in_place(&mut factors.l, &factors.u, &mut rhs);
    print!(rt; "push d -0, solve (5): ")?;
    refusal(rt, solved.answer)?;
    println!(rt; "({})", Double(rhs[0]))
}
