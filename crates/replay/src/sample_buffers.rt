// The buffers of a list: filled with contents that no call may read, and with stored factors.
ghost use Rattle.std.specs.Prelude.{◌≤◌};

use crate::compare::differ;
use crate::sample::{Reader, Word, double};
use api::LuMod;
use cards::{read_card, write_card};
use std::{array, slice};

// The largest capacity, for which L's storage has no more than 240 entries.
pub const LARGEST_CAPACITY: usize = 15;

// So many bytes hold the card of the largest dimension.
const LARGEST_CARD: usize = 3584;

// Factors as the sample stores them: row by row, the row of L and then that of U from the diagonal on.
#[derive(Clone, Copy)]
pub struct Factors<'a> {
    pub capacity: usize,
    pub dimension: usize,
    words: &'a [Word],
    ghost small: { capacity ≤ 15 },
    ghost within: { dimension ≤ capacity },
}

impl<'a> Factors<'a> {
    // Reads factors, where a sample can have them at this capacity and dimension.
    pub fn read(reader: &mut Reader<'a>, capacity: usize, dimension: usize) -> Option<Factors<'a>> {
        if capacity > LARGEST_CAPACITY || dimension > capacity {
            return None;
        }
        let words = reader.take(dimension * dimension + dimension * (dimension + 1) / 2)?;
        Some(Factors {
            capacity,
            dimension,
            words,
        })
    }
}

// Storage for L and U, and the three workspaces. A record's lengths are bytes, so each lies within an array.
#[derive(Clone, Copy)]
pub struct Buffers {
    pub l: [f64; 256],
    pub u: [f64; 256],
    pub y: [f64; 256],
    pub z: [f64; 256],
    pub w: [f64; 256],
}

// The bits from which the unused contents of a list count upward: NaNs, numbers near 10, subnormals, negative numbers near the largest.
fn unused_start(list: u64) -> u64 {
    let own = list % 65536 * 65536;
    match list % 4 {
        0 => 0x7FF8_0000_0000_0000 + own,
        1 => 0x4024_0000_0000_0000 + own,
        2 => 1 + own,
        _ => 0xFFEF_FFFF_0000_0000 + own,
    }
}

// Puts the next words into a row, as many as both have.
pub fn fill(row: &mut [f64], words: &mut slice::Iter<'_, Word>) {
    for (entry, word) in row.iter_mut().zip(words) {
        *entry = double(u64::from_le_bytes(*word));
    }
}

impl Buffers {
    // All buffers, with a list's unused contents.
    pub fn unused(list: u64) -> Buffers {
        let start = unused_start(list);
        let buffer = array::from_fn(|i| double(start.wrapping_add(i as u64)));
        Buffers {
            l: buffer,
            u: buffer,
            y: buffer,
            z: buffer,
            w: buffer,
        }
    }

    // Puts stored factors in, each row into the next part of its storage.
    pub fn place(&mut self, factors: &Factors<'_>) {
        let n = factors.dimension;
        let mut words = factors.words.iter();
        let mut l = self.l.as_mut_slice();
        let mut u = self.u.as_mut_slice();
        for row in 0..n {
            let (l_row, l_left) = l.split_at_mut(factors.capacity);
            let (u_row, u_left) = u.split_at_mut(factors.capacity - row);
            fill(&mut l_row[..n], &mut words);
            fill(&mut u_row[..n - row], &mut words);
            l = l_left;
            u = u_left;
        }
    }

    // Writes the factors to a card and reads it into other buffers, with a list's unused contents. None where a call is refused, or another state comes back.
    pub fn through_card(&self, factors: &Factors<'_>, list: u64) -> Option<Buffers> {
        let state = LuMod {
            n: factors.dimension,
            capacity: factors.capacity,
            counter: 0,
        };
        let mut card = [0; LARGEST_CARD];
        let bytes = write_card(state, &self.l, &self.u, &mut card).ok()?;
        let mut read = Buffers::unused(list);
        let resumed = read_card(
            factors.capacity,
            &mut read.l,
            &mut read.u,
            card.get(..bytes)?,
        );
        (resumed == Ok(state)).then_some(read)
    }

    // Whether the active entries of L and U are others than those that are stored.
    pub fn differ(&self, factors: &Factors<'_>) -> bool {
        let mut stored = *self;
        stored.place(factors);
        differ(&self.l, &stored.l) || differ(&self.u, &stored.u)
    }
}
