// Answers of the managed calls as the sample has them.
use api::{CallResult, LuMod, Removal, UpdateResult};
use refusals::Refusal;

// What a call answers: 0 or its refusal's number, the state that it hands back, the index that a refusal names (the diagonal with 9 and 10, the place in the
// data with 23) or for ready 1 or 0, and what remove moved.
#[derive(Clone, Copy, Debug, PartialEq, Eq)]
pub struct Answered {
    pub number: usize,
    pub dimension: usize,
    pub capacity: usize,
    pub index: Option<usize>,
    pub moved_row: Option<usize>,
    pub moved_column: Option<usize>,
}

impl Answered {
    // An answer that names no index and moved nothing.
    fn numbered(number: usize, state: LuMod) -> Answered {
        Answered {
            number,
            dimension: state.n,
            capacity: state.capacity,
            index: None,
            moved_row: None,
            moved_column: None,
        }
    }

    fn done(state: LuMod) -> Answered {
        Answered::numbered(0, state)
    }

    fn refused(refusal: Refusal, state: LuMod) -> Answered {
        Answered {
            index: refusal.index(),
            ..Answered::numbered(u32::from(refusal) as usize, state)
        }
    }
}

// What an accepted call answers besides its state.
pub trait Accepted {
    fn answered(self, state: LuMod) -> Answered;
}

// A push, a replacement or a solve.
impl Accepted for () {
    fn answered(self, state: LuMod) -> Answered {
        Answered::done(state)
    }
}

impl Accepted for Removal {
    fn answered(self, state: LuMod) -> Answered {
        Answered {
            moved_row: self.moved_row.map(|row| row.0),
            moved_column: self.moved_column.map(|column| column.0),
            ..Answered::done(state)
        }
    }
}

// Ready.
impl Accepted for bool {
    fn answered(self, state: LuMod) -> Answered {
        Answered {
            index: Some(usize::from(self)),
            ..Answered::done(state)
        }
    }
}

// Adopted storage answers its state.
impl Accepted for LuMod {
    fn answered(self, _asked: LuMod) -> Answered {
        Answered::done(self)
    }
}

// A call's answer, and how many pair steps it made. A sample has no pair steps: they are added up and not compared.
#[derive(Clone, Copy)]
pub struct Called {
    pub answer: Answered,
    pub steps: usize,
}

impl Called {
    pub fn new<T: Accepted>(answer: Result<T, Refusal>, state: LuMod, steps: usize) -> Called {
        let answer = match answer {
            Ok(accepted) => accepted.answered(state),
            Err(refusal) => Answered::refused(refusal, state),
        };
        Called { answer, steps }
    }
}

impl<T: Accepted> From<UpdateResult<T>> for Called {
    fn from(res: UpdateResult<T>) -> Called {
        Called::new(res.answer, res.state, res.steps)
    }
}

impl From<CallResult> for Called {
    fn from(res: CallResult) -> Called {
        Called::new(res.answer, res.state, 0)
    }
}
