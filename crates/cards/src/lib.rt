// Factors on a card: the writer and the reader, as free functions over the state of the managed interface, and `card_length`, which tells how long a buffer must
// be. refusal.rt has what they refuse.
#![tactic(auto)]

ghost use Rattle.std.specs.Prelude.{◌≡◌};
ghost use Rattle.api.specs.Answers.{state_of};
ghost use Rattle.card_format.specs.Reading.{no_whole_blocks, card_tests, reading};
ghost use Rattle.card_format.specs.Writing.{card_length};
ghost use Rattle.card_format.specs.Answers.{answer_under};
ghost use Rattle.card_calls.specs.CardCalls.{buffer_answer, write_tests, read_tests, CardWritten, CardRead};
ghost use Rattle.cards.specs.Answers.{test_of, number_or_refusal, read_of};

pub mod refusal;

use api::LuMod;
use card_reading::{in_format, read_l, read_u, wrong_check};
pub use card_words::card_length;
use card_words::word_at;
use card_writing::put_card;
use matrices::dense_l::DenseL;
use matrices::packed_u::PackedU;
use refusal::CardRefusal;
use refusals::{Refusal, test_sizes, test_storage};
use storage::SizeOverflow;

// 15 where a buffer is shorter than the card, or how many bytes are written to it.
fn test_buffer(n: usize, buffer: usize) -> Result<usize, CardRefusal>
    ensures { number_or_refusal result ≡ buffer_answer n buffer }
{
    let bytes = card_length(n).map_err(|_| CardRefusal::InvalidCardLength)?;
    if buffer < bytes {
        return Err(CardRefusal::InvalidCardLength);
    }
    Ok(bytes)
}

// 1, 2, 3, 13, then 15; or how many bytes are written.
#[tactic(auto, unfolding(card_calls::specs::CardCalls::write_tests))]
fn test_write(state: LuMod, l: usize, u: usize, buffer: usize) -> Result<usize, CardRefusal>
    ensures { number_or_refusal result ≡ answer_under (write_tests (state_of state) l u buffer) (card_length state.n) }
{
    test_storage(state.n, state.capacity, l, u)?;
    test_buffer(state.n, buffer)
}

// Writes the active factors and the counter to the beginning of a buffer, and answers how many bytes that took; nothing beyond is touched. InvalidDimension,
// SizeOverflow, InsufficientL and InsufficientU for the storage, as every call has them, then InvalidCardLength where the buffer is shorter than the card. A
// refused call writes nothing.
pub fn write_card(state: LuMod, l: &[f64], u: &[f64], card: &mut [u8]) -> Result<usize, CardRefusal>
    ensures { CardWritten (state_of state) l.now u.now card.old card.new (number_or_refusal result) }
{
    let bytes = test_write(state, l.len(), u.len(), card.len())?;
    let l = DenseL {
        n: state.n,
        stride: state.capacity,
        entries: l,
    };
    let u = PackedU {
        n: state.n,
        stride: state.capacity,
        entries: u,
    };
    put_card(card, bytes, state.counter, l, u);
    Ok(bytes)
}

// Whether so many bytes are no whole positive number of blocks.
fn no_whole_blocks(bytes: usize) -> bool
    ensures { result ≡ no_whole_blocks bytes }
{
    bytes == 0 || bytes % 512 != 0
}

// 15, then 16, then 17.
fn test_card(card: &[u8]) -> Result<(), CardRefusal>
    ensures { test_of result ≡ card_tests card.now }
{
    if no_whole_blocks(card.len()) {
        return Err(CardRefusal::InvalidCardLength);
    }
    if let Some(block) = wrong_check(card) {
        return Err(CardRefusal::DamagedBlock(block));
    }
    if !in_format(card) {
        return Err(CardRefusal::InvalidCard);
    }
    Ok(())
}

// 2, 3, 13 for the storage, then 15, 16 and 17 for the card, then 1; or the dimension.
#[tactic(auto, unfolding(card_calls::specs::CardCalls::read_tests))]
fn test_read(capacity: usize, l: usize, u: usize, card: &[u8]) -> Result<usize, CardRefusal>
    ensures { number_or_refusal result ≡ answer_under (read_tests capacity l u card.now) (reading card.now).state.n }
{
    test_sizes(capacity, l, u)?;
    test_card(card)?;
    let n = word_at(card, 0) as usize;
    if n > capacity {
        return Err(CardRefusal::Managed(Refusal::InvalidDimension));
    }
    Ok(n)
}

// Reads a card into storage of a capacity: sets the active entries, and hands back the state with the card's dimension and counter. Everything else in L and U
// stands, the solve work too. SizeOverflow, InsufficientL and InsufficientU for the storage; then InvalidCardLength where the bytes are no whole positive number
// of blocks, DamagedBlock with the lowest block whose check is wrong, InvalidCard where sound blocks are no card; then InvalidDimension where the card's
// dimension exceeds the capacity. A refused call writes nothing.
pub fn read_card(
    capacity: usize,
    l: &mut [f64],
    u: &mut [f64],
    card: &[u8],
) -> Result<LuMod, CardRefusal>
    ensures { CardRead capacity l.old u.old card.now l.new u.new (read_of result) }
{
    let n = test_read(capacity, l.len(), u.len(), card)?;
    read_l(l, n, capacity, card);
    read_u(u, n, capacity, card);
    Ok(LuMod {
        n,
        capacity,
        counter: word_at(card, 16) as usize,
    })
}
