// The questions about recorded words of a factor as C functions on slices and numbers; handles and answers are those of `capi_factor`.
// `capi_factor_words_c` exports them to C.
#![tactic(auto)]

ghost use Rattle.std.specs.Prelude.{◌≡◌, length, replicate};
ghost use Rattle.factor.specs.Questions.{length_answer, write_answer, written, word_part};
ghost use Rattle.capi_values.specs.Bridge.{handle, counted_code, letter_of};

use capi_values::inner::{counted_code, factor_of, letter_of};
use egg::GroupElementId;

// Answers how long the word of e is. Refuses in this order: 17 for a handle that does not fit, 14 for an element out of range, 17 for a recorded
// length over 4,096.
pub fn hg_length(table: &[u32], start: usize, room: u32, n: u8, count: u32, e: u32) -> u64
    ensures { result ≡ counted_code (length_answer table.now (handle start room n count) (record { 0 = e })) }
{
    counted_code(factor::word_length(table, factor_of(start, room, n, count), GroupElementId(e)))
}

// Writes the word of e to the start of out and answers its length. Refuses as hg_length does, then with 4 a short out, then with 17 a cell of letters
// that is out of range.
pub fn hg_word(
    table: &[u32],
    start: usize,
    room: u32,
    n: u8,
    count: u32,
    e: u32,
    out: &mut [u8],
) -> u64
    ensures { (result ≡ counted_code (write_answer table.now (handle start room n count) (record { 0 = e }) (length out.old))) × (out.new ≡ written table.now (handle start room n count) (record { 0 = e }) out.old) }
{
    let f = factor_of(start, room, n, count);
    counted_code(factor::write_word(table, f, GroupElementId(e), out))
}

// Answers the k-th letter of the word of e or, from its end on, 256 and its length. A word that hg_word refuses is empty here: the answer is 256.
pub fn hg_part(table: &[u32], start: usize, room: u32, n: u8, count: u32, e: u32, k: usize) -> u64
    ensures { result ≡ letter_of (word_part table.now (handle start room n count) (record { 0 = e }) (replicate 4096 0)) k }
{
    let f = factor_of(start, room, n, count);
    let mut buffer = [0; 4096];
    let part = factor::word(table, f, GroupElementId(e), &mut buffer);
    letter_of(part, k)
}
