// Words of a card on slices of bytes: read, put, and summed for the check; and how long a card is.
#![tactic(auto)]

ghost use Rattle.std.specs.Prelude.{◌≡◌, ◌+◌, ◌*◌, ◌^◌, ◌≤◌, ◌<◌, length};
ghost use Rattle.card_format.specs.Blocks.{check_word, numbered, word_at, word_in};
ghost use Rattle.card_format.specs.WordsPut.{WordPut, place};
ghost use Rattle.card_format.specs.Answers.{length_answer};
ghost use Rattle.card_format.specs.Writing.{entry_count};
ghost use Rattle.card_words.specs.Length.{length_of};

use storage::SizeOverflow;

// The word at a place, the least byte first.
pub fn word_at(bytes: &[u8], at: usize) -> u64
    requires { at + 8 ≤ length bytes.now }
    ensures { result ≡ word_at bytes.now at }
{
    u64::from_le_bytes([
        bytes[at],
        bytes[at + 1],
        bytes[at + 2],
        bytes[at + 3],
        bytes[at + 4],
        bytes[at + 5],
        bytes[at + 6],
        bytes[at + 7],
    ])
}

// The word's bytes are put at a place, the least first.
pub fn put_word(bytes: &mut [u8], at: usize, word: u64)
    requires { at + 8 ≤ length bytes.old }
    ensures { WordPut at word bytes.old bytes.new }
{
    bytes[at..at + 8].copy_from_slice(&word.to_le_bytes());
}

// The word of this number through all blocks, check words left out.
pub fn numbered_word(card: &[u8], number: usize) -> u64
    requires { place number + 8 ≤ length card.now }
    ensures { result ≡ numbered (word_in card.now) number }
{
    word_at(card, 512 * (number / 63) + 8 * (number % 63))
}

// Puts the word of this number.
pub fn put_numbered(card: &mut [u8], number: usize, word: u64)
    requires { place number + 8 ≤ length card.old }
    ensures { WordPut (place number) word card.old card.new }
{
    put_word(card, 512 * (number / 63) + 8 * (number % 63), word);
}

// The wrapping sum of a block's 63 words and its number, which is its check word.
pub fn block_sum(card: &[u8], block: usize) -> u64
    requires { 512 * block + 512 ≤ length card.now }
    ensures { result ≡ check_word block (word_in card.now block) }
{
    let mut sum = block as u64;
    for k in 0..63 {
        sum = sum.wrapping_add(word_at(card, 512 * block + 8 * k));
    }
    sum
}

// How many entries a dimension has.
pub fn entry_count(n: usize) -> usize
    requires { n < 2 ^ 31 }
    ensures { result ≡ entry_count n }
{
    n * n + n * (n + 1) / 2
}

// How many bytes the card of a dimension has. From 2^31 on it exceeds usize; below that every sum and product before the last fits in 64 bits.
pub fn card_length(n: usize) -> Result<usize, SizeOverflow>
    ensures { length_of result ≡ length_answer n }
{
    if n >= 1 << 31 {
        return Err(SizeOverflow);
    }
    let blocks = 1 + (entry_count(n) + 62) / 63;
    blocks.checked_mul(512).ok_or(SizeOverflow)
}
