// What a card holds, on a slice of bytes: the tests 16 and 17, and the doubles of its entries stored into L and U.
#![tactic(auto)]

ghost use Rattle.std.specs.Prelude.{◌≡◌, ◌&&◌, ◌+◌, ◌*◌, ◌/◌, ◌^◌, ◌≤◌, ◌<◌, not, length};
ghost use Rattle.std.specs.Float.{binary64};
ghost use Rattle.std.specs.Float.Ieee.{of_bits, nan_bits};
ghost use Rattle.machine.specs.Tables.{tabulate};
ghost use Rattle.machine.specs.Readiness.{all_below};
ghost use Rattle.storage.specs.Places.{u_length};
ghost use Rattle.card_format.specs.Blocks.{word_in, numbered};
ghost use Rattle.card_format.specs.Writing.{card_length, entry_count};
ghost use Rattle.card_format.specs.Reading.{other_nan, checked, wrong_check, entry_word, all_zero, header_right, rest_filled, nans_have_one_pattern, in_format};
ghost use Rattle.card_reading.specs.Read.{check_refusal, LRead, URead};

use card_words::{block_sum, card_length, entry_count, numbered_word, word_at};
use std::num::f64_from_bits_with_nan;
use storage::{l_index, u_index};

// The one pattern of a NaN.
const NAN: u64 = 0x7FF8_0000_0000_0000;

// Without its sign, a pattern above the infinity's is a NaN's.
const INFINITY: u64 = 0x7FF0_0000_0000_0000;

const SIGN: u64 = 0x8000_0000_0000_0000;

// The greatest figure of the counter.
const MOST: u64 = 999999;

// Whether a block's check word is the sum.
#[tactic(auto, unfolding(card_format::specs::Reading::checked))]
fn is_checked(card: &[u8], block: usize) -> bool
    requires { 512 * block + 512 ≤ length card.now }
    ensures { result ≡ checked (word_in card.now) block }
{
    word_at(card, 512 * block + 504) == block_sum(card, block)
}

// The lowest block whose check word is wrong.
pub fn wrong_check(card: &[u8]) -> Option<usize>
    ensures { check_refusal result ≡ wrong_check (word_in card.now) (length card.now / 512) }
{
    (0..card.len() / 512).find(|block| !is_checked(card, *block))
}

// Whether so many words are zero, from the number `first` on.
fn are_zero(card: &[u8], first: usize, count: usize) -> bool
    requires { first + count ≤ 63 * (length card.now / 512) }
    ensures { result ≡ all_zero (word_in card.now) first count }
{
    (0..count).all(|k| numbered_word(card, first + k) == 0)
}

// Whether a word is a NaN's.
#[tactic(auto, using(crate::proofs::Tests::nan_is))]
fn is_nan(word: u64) -> bool
    ensures { result ≡ nan_bits binary64 word }
{
    word % SIGN > INFINITY
}

// Whether a word is a NaN's with another pattern than 7FF8000000000000.
fn is_other_nan(word: u64) -> bool
    ensures { result ≡ other_nan word }
{
    is_nan(word) && word != NAN
}

// Whether a word of a block, its check word apart, is a NaN's. It looks at all 63, also behind one that it has found, so that the loop has no branch.
fn has_nan(card: &[u8], block: usize) -> bool
    requires { 512 * block + 512 ≤ length card.now }
    ensures { result ≡ not (all_below 63 (λ k. not (nan_bits binary64 (word_in card.now block k)))) }
{
    let mut found = false;
    for k in 0..63 {
        found |= is_nan(word_at(card, 512 * block + 8 * k));
    }
    found
}

// Whether the first `count` words of a block have no NaN with another pattern. Most blocks have no NaN at all.
fn has_one_pattern(card: &[u8], block: usize, count: usize) -> bool
    requires { (count ≤ 63) × (512 * block + 512 ≤ length card.now) }
    ensures { result ≡ all_below count (λ k. not (other_nan (word_in card.now block k))) }
{
    !has_nan(card, block) || (0..count).all(|k| !is_other_nan(word_at(card, 512 * block + 8 * k)))
}

// Whether the first `count` entries, whose words begin with block 1, have no NaN with another pattern.
fn nans_have_one_pattern(card: &[u8], count: usize) -> bool
    requires { 63 + count ≤ 63 * (length card.now / 512) }
    ensures { result ≡ all_below count (λ q. not (other_nan (entry_word (word_in card.now) q))) }
{
    (0..(count + 62) / 63).all(|b| has_one_pattern(card, b + 1, (count - 63 * b).min(63)))
}

// Whether word 2 is a figure of the counter, and words 3 to 62 are zero.
fn header_right(card: &[u8]) -> bool
    requires { 512 ≤ length card.now }
    ensures { result ≡ header_right (word_in card.now) }
{
    word_at(card, 16) <= MOST && are_zero(card, 3, 60)
}

// Whether the words behind the entries of dimension n are zero, and no entry is a NaN with another pattern.
#[tactic(auto, using(card_format::proofs::Cards::dimension_bound, card_format::proofs::Cards::entry_room))]
fn entries_in_format(card: &[u8], n: usize) -> bool
    requires { length card.now ≡ card_length n }
    ensures { result ≡ (rest_filled (word_in card.now) (length card.now / 512) n && nans_have_one_pattern (word_in card.now) n) }
{
    let entries = entry_count(n);
    let rest = 63 * (card.len() / 512 - 1) - entries;
    are_zero(card, 63 + entries, rest) && nans_have_one_pattern(card, entries)
}

// Whether the blocks are as many as word 1 says and as the dimension needs, the filling words are zero and no NaN has another pattern.
#[tactic(auto, unfolding(card_format::specs::Reading::in_format))]
pub fn in_format(card: &[u8]) -> bool
    requires whole { length card.now ≡ 512 * (length card.now / 512) }
    requires positive { 512 ≤ length card.now }
    ensures { result ≡ in_format (word_in card.now) (length card.now / 512) }
{
    let n = word_at(card, 0) as usize;
    word_at(card, 8) as usize == card.len() / 512
        && card_length(n) == Ok(card.len())
        && header_right(card)
        && entries_in_format(card, n)
}

// values[k] takes the double whose bits are word `word` + k of a block, for each of `values`.
fn read_run(values: &mut [f64], card: &[u8], block: usize, word: usize)
    requires { (word + length values.old ≤ 63) × (512 * block + 512 ≤ length card.now) }
    ensures { values.new ≡ tabulate (length values.old) (λ k. of_bits binary64 (word_in card.now block (word + k))) }
{
    for (k, value) in values.iter_mut().enumerate() {
        *value = f64_from_bits_with_nan(word_at(card, 512 * block + 8 * (word + k)));
    }
}

// values[k] takes the double whose bits are the word numbered first + k, for each of `values`: as many at a time as stand in one block.
fn read_values(values: &mut [f64], card: &[u8], first: usize)
    requires { first + length values.old ≤ 63 * (length card.now / 512) }
    ensures { values.new ≡ tabulate (length values.old) (λ k. of_bits binary64 (numbered (word_in card.now) (first + k))) }
{
    let mut k = 0;
    while k < values.len() {
        let block = (first + k) / 63;
        let word = (first + k) % 63;
        let run = (63 - word).min(values.len() - k);
        read_run(&mut values[k..k + run], card, block, word);
        k += run;
    }
}

// The active entries of L, at a stride, become those of the card.
pub fn read_l(l: &mut [f64], n: usize, stride: usize, card: &[u8])
    requires stride_fits { (n ≤ stride) × (stride < 2 ^ 32) }
    requires long { stride * stride ≤ length l.old }
    requires entries { 63 + n * n ≤ 63 * (length card.now / 512) }
    ensures { LRead stride n card.now l.old l.new }
{
    for row in 0..n {
        let start = l_index(row, 0, stride);
        read_values(&mut l[start..start + n], card, 63 + l_index(row, 0, n));
    }
}

// The active entries of U, at a stride, become those of the card.
pub fn read_u(u: &mut [f64], n: usize, stride: usize, card: &[u8])
    requires stride_fits { (n ≤ stride) × (stride < 2 ^ 32) }
    requires long { u_length stride ≤ length u.old }
    requires entries { 63 + entry_count n ≤ 63 * (length card.now / 512) }
    ensures { URead stride n card.now u.old u.new }
{
    for row in 0..n {
        let start = u_index(row, row, stride);
        let first = 63 + n * n + u_index(row, row, n);
        read_values(&mut u[start..start + n - row], card, first);
    }
}
