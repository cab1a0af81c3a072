// The writing of a state to a slice of bytes: header, rows, and zeros up to the end of the last block. A block's running sum goes from call to call: each word is
// added as it is put, and the sum is the check word once the block is full.
#![tactic(auto)]

ghost use Rattle.std.specs.Prelude.{◌≡◌, true, ◌+◌, ◌*◌, ◌/◌, ◌≤◌, ◌<◌, ◌++◌, length, drop, map, replicate};
ghost use Rattle.std.specs.Float.{binary64};
ghost use Rattle.std.specs.Float.Ieee.{to_bits};
ghost use Rattle.std.specs.Float.Ieee.Scale.{finite};
ghost use Rattle.numbers.specs.NumberForm.{ieee};
ghost use Rattle.machine.specs.Products.{entry};
ghost use Rattle.machine.specs.Readiness.{all_below};
ghost use Rattle.storage.specs.Places.{u_length};
ghost use Rattle.matrices.specs.Tables.{table_l, table_u, state_held};
ghost use Rattle.card_format.specs.Writing.{rows_of_l, rows_of_u, block_count, card_length, header, writing};
ghost use Rattle.card_format.specs.WordsPut.{WordPut, place, WordsPut, WordsFilled, partial_sum, sum_before};

use card_words::{entry_count, put_numbered, put_word};
use counter::counted;
use finite_factors::finite_range;
use matrices::dense_l::DenseL;
use matrices::packed_u::PackedU;
use std::num::f64_to_bits_with_nan;

// Puts a word of a block, and answers the running sum with it: every word that counts for a check is put together once, and added once.
fn add_word(card: &mut [u8], block: usize, word: usize, bits: u64, sum: u64) -> u64
    requires in_block { (word < 63) × (512 * block + 512 ≤ length card.old) }
    requires sum { sum ≡ partial_sum card.old block word }
    ensures word { WordPut (place (63 * block + word)) bits card.old card.new }
    ensures sum { result ≡ partial_sum card.new block (word + 1) }
{
    put_word(card, 512 * block + 8 * word, bits);
    sum.wrapping_add(bits)
}

// Adds the words of the values, from a word of a block on; a NaN's is always 7FF8000000000000. Answers the running sum with them.
fn add_values(card: &mut [u8], block: usize, word: usize, values: &[f64], sum: u64) -> u64
    requires in_block { (word + length values.now ≤ 63) × (512 * block + 512 ≤ length card.old) }
    requires sum { sum ≡ partial_sum card.old block word }
    ensures words { WordsPut (63 * block + word) (map (to_bits binary64) values.now) card.old card.new }
    ensures sum { result ≡ partial_sum card.new block (word + length values.now) }
{
    let mut sum = sum;
    for (k, value) in values.iter().enumerate() {
        sum = add_word(card, block, word + k, f64_to_bits_with_nan(*value), sum);
    }
    sum
}

// The same where all values are finite: none has to be compared, so the loop becomes vector code.
fn add_finite(card: &mut [u8], block: usize, word: usize, values: &[f64], sum: u64) -> u64
    requires in_block { (word + length values.now ≤ 63) × (512 * block + 512 ≤ length card.old) }
    requires finite { all_below (length values.now) (λ k. finite (entry (ieee binary64) values.now k)) ≡ true }
    requires sum { sum ≡ partial_sum card.old block word }
    ensures words { WordsPut (63 * block + word) (map (to_bits binary64) values.now) card.old card.new }
    ensures sum { result ≡ partial_sum card.new block (word + length values.now) }
{
    let mut sum = sum;
    for (k, value) in values.iter().enumerate() {
        sum = add_word(card, block, word + k, value.to_bits(), sum);
    }
    sum
}

// The same by one of these loops.
fn put_words(card: &mut [u8], block: usize, word: usize, values: &[f64], sum: u64) -> u64
    requires in_block { (word + length values.now ≤ 63) × (512 * block + 512 ≤ length card.old) }
    requires sum { sum ≡ partial_sum card.old block word }
    ensures words { WordsPut (63 * block + word) (map (to_bits binary64) values.now) card.old card.new }
    ensures sum { result ≡ partial_sum card.new block (word + length values.now) }
{
    if finite_range(values) {
        add_finite(card, block, word, values, sum)
    } else {
        add_values(card, block, word, values, sum)
    }
}

// The same, and the check word where the values fill the block. Answers the running sum before the next word.
fn put_run(card: &mut [u8], block: usize, word: usize, values: &[f64], sum: u64) -> u64
    requires in_block { (word < 63) × (word + length values.now ≤ 63) × (512 * block + 512 ≤ length card.old) }
    requires sum { sum ≡ partial_sum card.old block word }
    ensures words { WordsFilled (63 * block + word) (map (to_bits binary64) values.now) card.old card.new }
    ensures sum { result ≡ sum_before card.new (63 * block + word + length values.now) }
{
    let sum = put_words(card, block, word, values, sum);
    if word + values.len() < 63 {
        return sum;
    }
    put_word(card, 512 * block + 504, sum);
    block as u64 + 1
}

// Puts the bits of the values, one after another from the number `first` on: as many at a time as stand in one block.
fn put_values(card: &mut [u8], first: usize, values: &[f64], sum: u64) -> u64
    requires room { first + length values.now ≤ 63 * (length card.old / 512) }
    requires sum { sum ≡ sum_before card.old first }
    ensures words { WordsFilled first (map (to_bits binary64) values.now) card.old card.new }
    ensures sum { result ≡ sum_before card.new (first + length values.now) }
{
    let mut sum = sum;
    let mut k = 0;
    while k < values.len() {
        let block = (first + k) / 63;
        let word = (first + k) % 63;
        let run = (63 - word).min(values.len() - k);
        sum = put_run(card, block, word, &values[k..k + run], sum);
        k += run;
    }
    sum
}

// L, row by row, behind block 0: the sum starts at block 1's number.
fn put_l(card: &mut [u8], l: DenseL<'_>) -> u64
    requires { 63 + l.n * l.n ≤ 63 * (length card.old / 512) }
    ensures words { WordsFilled 63 (rows_of_l l.entry.n (λ i j. to_bits binary64 (table_l l.entry i j))) card.old card.new }
    ensures sum { result ≡ sum_before card.new (63 + l.entry.n * l.entry.n) }
{
    let mut sum = 1;
    for row in 0..l.n {
        sum = put_values(card, 63 + row * l.n, l.row(row), sum);
    }
    sum
}

// U, row by row, each from its diagonal on.
fn put_u(card: &mut [u8], first: usize, u: PackedU<'_>, sum: u64) -> u64
    requires room { first + u_length u.n ≤ 63 * (length card.old / 512) }
    requires sum { sum ≡ sum_before card.old first }
    ensures words { WordsFilled first (rows_of_u u.entry.n (λ i j. to_bits binary64 (table_u u.entry i j))) card.old card.new }
    ensures sum { result ≡ sum_before card.new (first + u_length u.entry.n) }
{
    let mut sum = sum;
    let mut next = first;
    for row in 0..u.n {
        let values = u.row(row);
        sum = put_values(card, next, values, sum);
        next += values.len();
    }
    sum
}

// So many zero words.
fn put_zeros(card: &mut [u8], first: usize, count: usize)
    requires { first + count ≤ 63 * (length card.old / 512) }
    ensures { WordsPut first (replicate count 0) card.old card.new }
{
    for k in 0..count {
        put_numbered(card, first + k, 0);
    }
}

// Zeros up to the end of a block, where one is begun, and its check word: zeros add nothing to the sum.
fn put_rest(card: &mut [u8], first: usize, count: usize, sum: u64)
    requires rest { first + count ≡ 63 * ((first + 62) / 63) }
    requires room { first + count ≤ 63 * (length card.old / 512) }
    requires sum { sum ≡ sum_before card.old first }
    ensures { WordsFilled first (replicate count 0) card.old card.new }
{
    if count > 0 {
        put_zeros(card, first, count);
        put_word(card, 512 * (first / 63) + 504, sum);
    }
}

// Block 0: the dimension, the number of blocks and the counter, which stops at 999,999, and zeros.
fn put_header(card: &mut [u8], n: usize, blocks: usize, counter: usize)
    requires { (blocks ≡ block_count n) × (512 ≤ length card.old) }
    ensures { WordsFilled 0 (header n counter) card.old card.new }
{
    let sum = add_word(card, 0, 0, n as u64, 0);
    let sum = add_word(card, 0, 1, blocks as u64, sum);
    let sum = add_word(card, 0, 2, counted(counter) as u64, sum);
    put_rest(card, 3, 60, sum);
}

// Puts the writing of the state that l and u hold, with the counter, at the beginning of a buffer. It is `bytes` long, and nothing beyond is touched.
pub fn put_card(card: &mut [u8], bytes: usize, counter: usize, l: DenseL<'_>, u: PackedU<'_>)
    requires { (u.n ≡ l.n) × (bytes ≡ card_length l.n) × (bytes ≤ length card.old) }
    ensures { card.new ≡ writing (record { state = state_held l.entry u.entry; counter = counter }) ++ drop (card_length l.entry.n) card.old }
{
    let blocks = bytes / 512;
    let entries = entry_count(l.n);
    put_header(card, l.n, blocks, counter);
    let sum = put_l(card, l);
    let sum = put_u(card, 63 + l.n * l.n, u, sum);
    put_rest(card, 63 + entries, 63 * blocks - (63 + entries), sum);
}
