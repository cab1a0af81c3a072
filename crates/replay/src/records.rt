// Reading the sample's lists and records.
use crate::answer::Answered;
use crate::call::{Call, Function};
use crate::sample::{Reader, Word, double};
use crate::sample_buffers::{Factors, LARGEST_CAPACITY};
use api::{ColumnIndex, LuMod, RowIndex};
use refusals::Refusal;

// A list's start: its number of calls, and its capacity, its dimension and its factors.
#[derive(Clone, Copy)]
pub struct Start<'a> {
    pub calls: u64,
    pub factors: Factors<'a>,
}

impl<'a> Start<'a> {
    pub fn read(reader: &mut Reader<'a>) -> Option<Start<'a>> {
        let calls = reader.word()?;
        let capacity = reader.size()?;
        let dimension = reader.size()?;
        let factors = Factors::read(reader, capacity, dimension)?;
        Some(Start { calls, factors })
    }
}

// What is expected of a call: its answer, and the factors and the first vector as it leaves them.
#[derive(Clone, Copy)]
pub struct Expected<'a> {
    pub answer: Answered,
    pub factors: Factors<'a>,
    pub vector: &'a [Word],
}

// A record of a call with its two vectors and what is expected of it.
#[derive(Clone, Copy)]
pub struct Record<'a> {
    pub call: Call,
    pub first: &'a [Word],
    pub second: &'a [Word],
    pub expected: Expected<'a>,
}

// An index, or what a remove moved; 2^64 - 1 stands for none.
fn read_index(reader: &mut Reader<'_>) -> Option<Option<usize>> {
    let index = reader.size()?;
    Some((index != usize::MAX).then_some(index))
}

// Which buffer a call lends wrongly whose storage or workspaces the Rust refuses, by document 02's order: L, then U, then the workspaces.
// Beyond the largest capacity no L that a sample can lend is long enough.
fn wrong_buffer(call: &Call) -> Refusal {
    let capacity = call.state.capacity;
    if capacity > LARGEST_CAPACITY {
        return Refusal::InsufficientL;
    }
    let needed = capacity * (capacity + 1);
    if usize::from(call.l) < needed {
        return Refusal::InsufficientL;
    }
    if usize::from(call.u) < needed / 2 {
        return Refusal::InsufficientU;
    }
    Refusal::UnequalWorkspaces
}

// The number of an answer: 0, one of the Rust's refusals, which are 1 to 10, or 23. The Rust's InsufficientStorage, which is 3, is told apart.
fn read_number(reader: &mut Reader<'_>, call: &Call) -> Option<usize> {
    match reader.size()? {
        3 => Some(u32::from(wrong_buffer(call)) as usize),
        number if number <= 10 || number == 23 => Some(number),
        _ => None,
    }
}

fn read_answer(reader: &mut Reader<'_>, call: &Call) -> Option<Answered> {
    let number = read_number(reader, call)?;
    let dimension = reader.size()?;
    let index = read_index(reader)?;
    let moved_row = read_index(reader)?;
    let moved_column = read_index(reader)?;
    Some(Answered {
        number,
        dimension,
        capacity: call.state.capacity,
        index,
        moved_row,
        moved_column,
    })
}

// The answer, and what an accepted call leaves behind in the sample: an update its factors, a solve its vector. Otherwise the factors are those before the
// call, and the vector is the first one.
fn read_expected<'a>(
    reader: &mut Reader<'a>,
    call: &Call,
    before: Factors<'a>,
    first: &'a [Word],
) -> Option<Expected<'a>> {
    let answer = read_answer(reader, call)?;
    let mut factors = before;
    let mut vector = first;
    if answer.number == 0 {
        if answer.dimension > before.capacity {
            return None;
        }
        match call.function {
            Function::Push | Function::ReplaceRow | Function::ReplaceColumn | Function::Remove => {
                factors = Factors::read(reader, before.capacity, answer.dimension)?;
            }
            Function::Solve | Function::SolveTranspose => vector = reader.take(first.len())?,
            Function::Ready | Function::FromStorage => {}
        }
    }
    Some(Expected {
        answer,
        factors,
        vector,
    })
}

impl<'a> Record<'a> {
    // Reads a record whose call is made on the factors `before`.
    pub fn read(reader: &mut Reader<'a>, before: Factors<'a>) -> Option<Record<'a>> {
        let [function, l, u, y, z, w, first, second] = reader.word()?.to_le_bytes();
        let function = Function::try_from(function).ok()?;
        let n = reader.size()?;
        let capacity = reader.size()?;
        let row = RowIndex(reader.size()?);
        let column = ColumnIndex(reader.size()?);
        let diagonal = double(reader.word()?);
        let state = LuMod {
            n,
            capacity,
            counter: 0,
        };
        let call = Call {
            function,
            l,
            u,
            y,
            z,
            w,
            first,
            second,
            state,
            row,
            column,
            diagonal,
        };
        let first = reader.take(usize::from(first))?;
        let second = reader.take(usize::from(second))?;
        let expected = read_expected(reader, &call, before, first)?;
        Some(Record {
            call,
            first,
            second,
            expected,
        })
    }
}
