// The lists of calls, one after the other.
use crate::compare::differs_from;
use crate::counts::{Counts, Position};
use crate::records::{Record, Start};
use crate::sample::{Malformed, Reader};
use crate::sample_buffers::{Buffers, Factors, fill};
use std::io;

// The first word of a sample: the bytes "LUMOD 1" and a line's end.
const FIRST_WORD: u64 = 0x0A31_2044_4F4D_554C;

// The byte where the first list starts.
const FIRST_LIST: usize = 16;

// Why a replay ends early: the sample is malformed, or a line cannot be printed.
#[derive(Debug, Drop)]
pub enum ReplayError {
    Malformed(Malformed),
    Io(io::Error),
}

impl From<Malformed> for ReplayError {
    fn from(error: Malformed) -> ReplayError {
        ReplayError::Malformed(error)
    }
}

impl From<io::Error> for ReplayError {
    fn from(error: io::Error) -> ReplayError {
        ReplayError::Io(error)
    }
}

// Makes the call of a record, and compares the answer, the factors and the first vector.
fn replay_record(
    rt: &impl Print,
    record: &Record<'_>,
    position: Position,
    buffers: &mut Buffers,
    counts: &mut Counts,
) -> io::Result<()> {
    let expected = record.expected;
    let mut first = [0.0; 256];
    let mut second = [0.0; 256];
    fill(&mut first, &mut record.first.iter());
    fill(&mut second, &mut record.second.iter());
    let called = record.call.make(buffers, &mut first, &second);
    counts.count(&called);
    if called.answer != expected.answer {
        counts.note(rt, position, "another answer")?;
    }
    if buffers.differ(&expected.factors) {
        counts.note(rt, position, "other factors")?;
    }
    if differs_from(&first, expected.vector) {
        counts.note(rt, position, "another vector")?;
    }
    Ok(())
}

// Goes on from a card: the factors are written to it and read into buffers with the next list's unused contents.
fn resume(
    rt: &impl Print,
    factors: &Factors<'_>,
    position: Position,
    buffers: &mut Buffers,
    counts: &mut Counts,
) -> io::Result<()> {
    counts.count_card();
    match buffers.through_card(factors, position.list.wrapping_add(1)) {
        Some(read) => *buffers = read,
        None => counts.note(rt, position, "no card")?,
    }
    Ok(())
}

// A list: its number of calls, its capacity, its dimension, its factors and its calls. Before every third call it goes on from a card.
fn replay_list(
    rt: &impl Print,
    reader: &mut Reader<'_>,
    list: u64,
    counts: &mut Counts,
) -> Result<(), ReplayError> {
    let at = reader.at();
    let start = Start::read(reader).ok_or(Malformed { at })?;
    let mut factors = start.factors;
    let mut buffers = Buffers::unused(list);
    buffers.place(&factors);
    for call in 1..=start.calls {
        let at = reader.at();
        let record = Record::read(reader, factors).ok_or(Malformed { at })?;
        let position = Position { list, call };
        if call % 3 == 0 {
            resume(rt, &factors, position, &mut buffers, counts)?;
        }
        replay_record(rt, &record, position, &mut buffers, counts)?;
        factors = record.expected.factors;
    }
    Ok(())
}

// Replays the whole sample and says what came of it. Bytes after the last whole word are in no word.
pub fn replay(rt: &impl Print, data: &[u8]) -> Result<(), ReplayError> {
    let (words, _) = data.as_chunks::<8>();
    let mut reader = Reader::new(words);
    if reader.word() != Some(FIRST_WORD) {
        return Err(Malformed { at: 0 }.into());
    }
    let lists = reader.word().ok_or(Malformed { at: FIRST_LIST })?;
    let mut counts = Counts::default();
    for list in 1..=lists {
        replay_list(rt, &mut reader, list, &mut counts)?;
    }
    let at = reader.at();
    if !data.len().is_multiple_of(8) || !reader.ends_with_check_word() {
        return Err(Malformed { at }.into());
    }
    println!(rt; "{lists} lists, {counts}")?;
    Ok(())
}
