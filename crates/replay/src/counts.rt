// Counting calls, answers and differences, and what is printed of them.
use crate::answer::Called;
use std::{fmt, io};

// A call by its list and its number there, counted from 1.
#[derive(Clone, Copy)]
pub struct Position {
    pub list: u64,
    pub call: u64,
}

impl fmt::Display for Position {
    fn fmt<W: fmt::Write>(&self, f: &mut fmt::Formatter<W>) -> fmt::Result {
        write!(f, "list {}, call {}", self.list, self.call)
    }
}

// How many calls there were, how many cards between them, how many pair steps and differences, and how many answers of each number up to 23.
#[derive(Clone, Copy, Debug, Default)]
pub struct Counts {
    calls: u64,
    cards: u64,
    steps: u64,
    differences: u64,
    answers: [u64; 24],
}

impl Counts {
    // Counts a call, its pair steps and its answer.
    pub fn count(&mut self, called: &Called) {
        self.calls = self.calls.wrapping_add(1);
        self.steps = self.steps.wrapping_add(called.steps as u64);
        if let Some(count) = self.answers.get_mut(called.answer.number) {
            *count = count.wrapping_add(1);
        }
    }

    // Counts a card.
    pub fn count_card(&mut self) {
        self.cards = self.cards.wrapping_add(1);
    }

    // Counts a difference, and names the first few.
    pub fn note(&mut self, rt: &impl Print, position: Position, what: &str) -> io::Result<()> {
        self.differences = self.differences.wrapping_add(1);
        if self.differences <= 8 {
            println!(rt; "{position}: {what}")?;
        }
        Ok(())
    }
}

impl fmt::Display for Counts {
    fn fmt<W: fmt::Write>(&self, f: &mut fmt::Formatter<W>) -> fmt::Result {
        let answers = &self.answers;
        write!(
            f,
            "{} calls, {} cards, {} pair steps, refusals 1 to 10, 13, 14 and 23:",
            self.calls, self.cards, self.steps
        )?;
        for count in &answers[1..11] {
            write!(f, " {count}")?;
        }
        write!(
            f,
            " {} {} {}, {} differences",
            answers[13], answers[14], answers[23], self.differences
        )
    }
}
