// The managed calls, made as a record says.
use crate::answer::Called;
use crate::sample_buffers::Buffers;
use api::{ColumnIndex, LuMod, RowIndex};

#[derive(Clone, Copy, Debug, PartialEq, Eq)]
pub enum Function {
    Push,
    ReplaceRow,
    ReplaceColumn,
    Remove,
    Solve,
    SolveTranspose,
    Ready,
    FromStorage,
}

// A number that stands for no function.
#[derive(Clone, Copy, Debug, PartialEq, Eq)]
pub struct UnknownFunction;

// The functions, by the numbers that records have for them.
impl TryFrom<u8> for Function {
    type Error = UnknownFunction;

    fn try_from(number: u8) -> Result<Function, UnknownFunction> {
        match number {
            1 => Ok(Function::Push),
            2 => Ok(Function::ReplaceRow),
            3 => Ok(Function::ReplaceColumn),
            4 => Ok(Function::Remove),
            5 => Ok(Function::Solve),
            6 => Ok(Function::SolveTranspose),
            7 => Ok(Function::Ready),
            8 => Ok(Function::FromStorage),
            _ => Err(UnknownFunction),
        }
    }
}

// A call's function, how much of each buffer and of its two vectors it lends, its dimension and capacity, and its data besides the vectors.
#[derive(Clone, Copy)]
pub struct Call {
    pub function: Function,
    pub l: u8,
    pub u: u8,
    pub y: u8,
    pub z: u8,
    pub w: u8,
    pub first: u8,
    pub second: u8,
    pub state: LuMod,
    pub row: RowIndex,
    pub column: ColumnIndex,
    pub diagonal: f64,
}

// What a call is lent of a buffer.
fn lend(buffer: &mut [f64; 256], length: u8) -> &mut [f64] {
    &mut buffer[..usize::from(length)]
}

impl Call {
    // Makes the call, with its buffers and its vectors at the lengths that the record says.
    pub fn make(
        &self,
        buffers: &mut Buffers,
        first: &mut [f64; 256],
        second: &[f64; 256],
    ) -> Called {
        let Buffers { l, u, y, z, w } = buffers;
        let l = lend(l, self.l);
        let u = lend(u, self.u);
        let y = lend(y, self.y);
        let z = lend(z, self.z);
        let w = lend(w, self.w);
        let first = lend(first, self.first);
        let second = &second[..usize::from(self.second)];
        let state = self.state;
        match self.function {
            Function::Push => state
                .push(l, u, y, z, w, first, second, self.diagonal)
                .into(),
            Function::ReplaceRow => state.replace_row(l, u, y, z, w, self.row, first).into(),
            Function::ReplaceColumn => state
                .replace_column(l, u, y, z, w, self.column, first)
                .into(),
            Function::Remove => state.remove(l, u, y, z, w, self.row, self.column).into(),
            Function::Solve => state.solve_in_place(l, u, first).into(),
            Function::SolveTranspose => state.solve_transpose_in_place(l, u, first).into(),
            Function::Ready => Called::new(state.ready(l, u), state, 0),
            Function::FromStorage => {
                Called::new(LuMod::from_storage(state.n, state.capacity, l, u), state, 0)
            }
        }
    }
}
