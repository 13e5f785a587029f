//! Which definitions each one reaches by calls, as rows of bits.
ghost use Rattle.std.specs.Prelude.{◌≡◌, IfOk};
ghost use Rattle.asm_calls.specs.Orders.{count_below};
ghost use Rattle.asm_calls.specs.Rows as spec;

use asm_base::List;
use std::alloc::{AllocError, Global};

/// How many bits a word has.
const BITS: usize = 64;

/// The word of a row; past the end of the row, and of the rows, no bit is set.
fn row_word(rows: &[List<u64>], from: usize, at: usize) -> u64
    ensures { result ≡ spec.row_word rows.now from at }
{
    match rows.get(from) {
        Some(row) => match row.as_slice().get(at) {
            Some(word) => *word,
            None => 0,
        },
        None => 0,
    }
}

/// Whether a definition reaches another.
#[tactic(auto, unfolding(crate::specs::Rows::has))]
pub(crate) fn has(rows: &[List<u64>], from: usize, to: usize) -> bool
    ensures { result ≡ spec.has rows.now from to }
{
    row_word(rows, from, to / BITS) >> (to % BITS) & 1 == 1
}

/// A word with the bit of a definition, where it is this word that has it.
#[tactic(auto, unfolding(crate::specs::Rows::with_call))]
fn with_call(word: u64, at: usize, to: usize) -> u64
    ensures { result ≡ spec.with_call at word to }
{
    if to / BITS == at {
        word | 1 << (to % BITS)
    } else {
        word
    }
}

/// The word with this number of the definitions that one calls.
#[tactic(auto, unfolding(crate::specs::Rows::with_calls))]
fn word_of(calls: &[usize], at: usize) -> u64
    ensures { result ≡ spec.with_calls at 0 calls.now }
{
    let mut word = 0;
    for to in calls {
        word = with_call(word, at, *to);
    }
    word
}

/// The row of the definitions that one calls.
#[tactic(auto, using(crate::proofs::RowSteps::row_steps))]
fn row_of(alloc: Global, words: usize, calls: &[usize]) -> Result<List<u64>, AllocError>
    ensures { IfOk result (λ row. row ≡ spec.row_of words calls.now) }
{
    let mut row = List::new(alloc);
    for at in 0..words {
        row.push(word_of(calls, at))?;
    }
    Ok(row)
}

/// The rows of the definitions that each one calls.
fn rows_of(
    alloc: Global,
    words: usize,
    calls: &[List<usize>],
) -> Result<List<List<u64>>, AllocError>
    ensures { IfOk result (λ rows. rows ≡ spec.rows_of words calls.now) }
{
    let mut rows = List::new(alloc);
    for one in calls {
        rows.push(row_of(alloc, words, one.as_slice())?)?;
    }
    Ok(rows)
}

/// A word, or no bits.
fn masked(whole: bool, word: u64) -> u64
    ensures { result ≡ spec.masked whole word }
{
    if whole { word } else { 0 }
}

/// A word of what a definition reaches, with what the middle one reaches where it reaches that.
fn word_through(rows: &[List<u64>], middle: usize, from: usize, at: usize) -> u64
    ensures { result ≡ spec.word_through rows.now middle from at }
{
    let more = masked(has(rows, from, middle), row_word(rows, middle, at));
    row_word(rows, from, at) | more
}

/// What a definition reaches, by way of the middle one too.
#[tactic(auto, using(crate::proofs::RowSteps::row_through_steps))]
fn row_through(
    alloc: Global,
    words: usize,
    rows: &[List<u64>],
    middle: usize,
    from: usize,
) -> Result<List<u64>, AllocError>
    ensures { IfOk result (λ row. row ≡ spec.row_through words rows.now middle from) }
{
    let mut row = List::new(alloc);
    for at in 0..words {
        row.push(word_through(rows, middle, from, at))?;
    }
    Ok(row)
}

/// What each of so many definitions reaches, by way of the middle one too.
#[tactic(auto, using(crate::proofs::RowSteps::through_steps))]
fn through(
    alloc: Global,
    words: usize,
    count: usize,
    rows: &[List<u64>],
    middle: usize,
) -> Result<List<List<u64>>, AllocError>
    ensures { IfOk result (λ new. new ≡ spec.through words count rows.now middle) }
{
    let mut new = List::new(alloc);
    for from in 0..count {
        new.push(row_through(alloc, words, rows, middle, from)?)?;
    }
    Ok(new)
}

/// What each definition reaches by one call or more, where they call these.
#[tactic(auto, using(crate::proofs::RowSteps::closing), unfolding(crate::specs::Rows::closure),)]
pub(crate) fn closure(alloc: Global, calls: &[List<usize>]) -> Result<List<List<u64>>, AllocError>
    ensures { IfOk result (λ rows. rows ≡ spec.closure calls.now) }
{
    let words = calls.len() / BITS + 1;
    let mut rows = rows_of(alloc, words, calls)?;
    for middle in 0..calls.len() {
        match through(alloc, words, calls.len(), rows.as_slice(), middle) {
            Ok(more) => rows = more,
            Err(error) => return Err(error),
        }
    }
    Ok(rows)
}

/// How many of the first so many definitions one reaches.
#[tactic(auto, using(crate::proofs::RowSteps::count_steps))]
pub(crate) fn reached(rows: &[List<u64>], count: usize, from: usize) -> usize
    ensures { result ≡ count_below (spec.has rows.now from) count }
{
    let mut reached: usize = 0;
    for to in 0..count {
        if has(rows, from, to) {
            reached += 1;
        }
    }
    reached
}
