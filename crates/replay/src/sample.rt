// Reading the sample: words of eight bytes, the lowest first.
ghost use Rattle.std.specs.Prelude.{◌≤◌, length};

use std::error::Error;
use std::fmt;

// A sample that is short, too long or changed, with the byte where its list, its record or its check word starts.
#[derive(Clone, Copy, Debug, PartialEq, Eq)]
pub struct Malformed {
    pub at: usize,
}

impl fmt::Display for Malformed {
    fn fmt<W: fmt::Write>(&self, f: &mut fmt::Formatter<W>) -> fmt::Result {
        write!(f, "the sample is malformed at byte {}", self.at)
    }
}

impl Error for Malformed {}

// A word as its bytes.
pub type Word = [u8; 8];

// The words of a sample, and those of them that are still to be read.
#[derive(Drop)]
pub struct Reader<'a> {
    words: &'a [Word],
    left: &'a [Word],
    ghost within: { length left.now ≤ length words.now },
}

impl<'a> Reader<'a> {
    pub fn new(words: &'a [Word]) -> Reader<'a> {
        Reader { words, left: words }
    }

    // The byte where the next word starts.
    pub fn at(&self) -> usize {
        (self.words.len() - self.left.len()) * 8
    }

    // The next word.
    pub fn word(&mut self) -> Option<u64> {
        let (word, left) = self.left.split_first()?;
        self.left = left;
        Some(u64::from_le_bytes(*word))
    }

    // A dimension, a capacity, an index or a count.
    pub fn size(&mut self) -> Option<usize> {
        Some(self.word()? as usize)
    }

    // The next words, as many as are asked for.
    pub fn take(&mut self, count: usize) -> Option<&'a [Word]> {
        let (taken, left) = self.left.split_at_checked(count)?;
        self.left = left;
        Some(taken)
    }

    // Whether one word is left, the sum of those before it modulo 2^64.
    pub fn ends_with_check_word(&self) -> bool {
        let before = &self.words[..self.words.len() - self.left.len()];
        let sum = before
            .iter()
            .map(|word| u64::from_le_bytes(*word))
            .fold(0, |sum: u64, word| sum.wrapping_add(word));
        self.left == [sum.to_le_bytes()].as_slice()
    }
}

// The double that has these bits; all NaNs are one.
pub fn double(bits: u64) -> f64 {
    if bits % 0x8000_0000_0000_0000 > 0x7FF0_0000_0000_0000 {
        return f64::NAN;
    }
    f64::from_bits(bits)
}
