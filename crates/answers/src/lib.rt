// The answers of the managed calls as a C host gets them: numbers.
#![tactic(auto)]

ghost use Rattle.std.specs.Prelude.{◌≡◌};
ghost use Rattle.refusals.specs.Refusal.{answer_of};
ghost use Rattle.api.specs.Answers.{remove_answer_of};
ghost use Rattle.answers.specs.Numbers.{index_after, moved_row_after, moved_column_after};

use api::Removal;
use refusals::Refusal;

// The index that a refusal names, of a diagonal or of a place in the data, or else `old`.
pub fn named_index<T: Copy>(answer: Result<T, Refusal>, old: usize) -> usize
    ensures { result ≡ index_after (answer_of answer) old }
{
    answer.err().and_then(Refusal::index).unwrap_or(old)
}

// The row that a remove moved, or SIZE_MAX where none moved, or `old` where it was refused.
// A function of what moved for this and `moved_column` would have, with its contract, more lines than the two `map_or`.
pub fn moved_row(answer: Result<Removal, Refusal>, old: usize) -> usize
    ensures { result ≡ moved_row_after (remove_answer_of answer) old }
{
    match answer {
        Ok(removal) => removal.moved_row.map_or(usize::MAX, |row| row.0),
        Err(_) => old,
    }
}

// The same of the column.
pub fn moved_column(answer: Result<Removal, Refusal>, old: usize) -> usize
    ensures { result ≡ moved_column_after (remove_answer_of answer) old }
{
    match answer {
        Ok(removal) => removal.moved_column.map_or(usize::MAX, |column| column.0),
        Err(_) => old,
    }
}
