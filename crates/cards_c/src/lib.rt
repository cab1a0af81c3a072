// The calls on cards for a C host: the length of a card, the writer and the reader. Each returns its refusal's number, 0 for success. C has no Result: the number
// and the out-parameters stand for it.
#![tactic(auto)]

ghost use Rattle.std.specs.Prelude.{◌≡◌};
ghost use Rattle.managed.specs.Instance.{state_value};
ghost use Rattle.card_format.specs.Answers.{length_answer};
ghost use Rattle.cards.specs.Answers.{read_of};
ghost use Rattle.cards_c.specs.Returned.{BytesReturned, WriteReturned, ReadReturned, block_after};

use api::LuMod;
use cards::refusal::CardRefusal;
use cards::{card_length, read_card, write_card};
use host_numbers::result_number;
use refusals::Refusal;

// How many bytes the card of a dimension has.
#[unsafe(no_mangle)]
pub extern "C" fn lumod_card_length(n: usize, bytes: &mut usize) -> u32
    ensures { BytesReturned (length_answer n) bytes.old bytes.new result }
{
    let length = card_length(n);
    *bytes = length.unwrap_or(*bytes);
    result_number(length.map_err(Refusal::from))
}

// Writes a card to the beginning of a buffer.
#[unsafe(no_mangle)]
pub extern "C" fn lumod_write_card(
    n: usize,
    c: usize,
    counter: usize,
    l: &[f64],
    u: &[f64],
    card: &mut [u8],
    written: &mut usize,
) -> u32
    ensures { WriteReturned (state_value n c counter) l.now u.now card.old card.new written.old written.new result }
{
    let state = LuMod {
        n,
        capacity: c,
        counter,
    };
    let answer = write_card(state, l, u, card);
    *written = answer.unwrap_or(*written);
    result_number(answer)
}

// The block that a refusal names, or else `old`.
fn named_block(answer: Result<LuMod, CardRefusal>, old: usize) -> usize
    ensures { result ≡ block_after (read_of answer) old }
{
    answer.err().and_then(CardRefusal::block).unwrap_or(old)
}

// Reads a card into storage of a capacity.
#[unsafe(no_mangle)]
pub extern "C" fn lumod_read_card(
    n: &mut usize,
    c: usize,
    counter: &mut usize,
    l: &mut [f64],
    u: &mut [f64],
    card: &[u8],
    block: &mut usize,
) -> u32
    ensures { ReadReturned c l.old u.old card.now l.new u.new n.old counter.old block.old n.new counter.new block.new result }
{
    let answer = read_card(c, l, u, card);
    if let Ok(state) = answer {
        *n = state.n;
        *counter = state.counter;
    }
    *block = named_block(answer, *block);
    result_number(answer)
}
