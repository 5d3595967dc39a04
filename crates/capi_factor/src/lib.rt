// The questions about a factor as C functions on slices and numbers; compose is in `capi_factor_compose`, words are in `capi_factor_words`. A handle
// is its four numbers. A question's answer is one number: the element or the count, or a refusal's number times 2^32 and its first place. Where all
// three places matter the answer is written into a lent list, and its number is handed back.
// `capi_factor_c` exports them to C.
#![tactic(auto)]

ghost use Rattle.std.specs.Prelude.{◌≡◌, []};
ghost use Rattle.egg.specs.Factor.{step_answer};
ghost use Rattle.factor.specs.Questions.{inverse_answer, conjugate_answer, generator_answer, count_answer};
ghost use Rattle.factor.specs.Relations.{check_answer};
ghost use Rattle.capi_values.specs.Bridge.{handle, reached_code, counted_code, telling, in_out, verdict_told};

use capi_values::inner::{counted_code, factor_of, reached_code, write_verdict};
use egg::{GeneratorId, GroupElementId};

// Answers how many elements the factor has. Refuses with 17 a handle that does not fit.
pub fn hg_count(table: &[u32], start: usize, room: u32, n: u8, count: u32) -> u64
    ensures { result ≡ counted_code (count_answer table.now (handle start room n count)) }
{
    counted_code(factor::element_count(table, factor_of(start, room, n, count)))
}

// Answers the step from e by g. Refuses in this order: 17 for a handle that does not fit, 14 for an element or a generator out of range, 17 for a
// number read that is out of range.
pub fn hg_step(table: &[u32], start: usize, room: u32, n: u8, count: u32, e: u32, g: u8) -> u64
    ensures { result ≡ reached_code (step_answer table.now (handle start room n count) (record { 0 = e }) (record { 0 = g })) }
{
    let f = factor_of(start, room, n, count);
    reached_code(egg::step(table, f, GroupElementId(e), GeneratorId(g)))
}

// Answers the element that the generator g is. Refuses as hg_step does.
pub fn hg_generator(table: &[u32], start: usize, room: u32, n: u8, count: u32, g: u8) -> u64
    ensures { result ≡ reached_code (generator_answer table.now (handle start room n count) (record { 0 = g })) }
{
    reached_code(factor::generator(table, factor_of(start, room, n, count), GeneratorId(g)))
}

// Answers a * b * a^-1. Refuses in this order: 17 for a handle that does not fit, 14 for an element out of range, 17 for a number read that is out of
// range.
pub fn hg_conjugate(
    table: &[u32],
    start: usize,
    room: u32,
    n: u8,
    count: u32,
    a: u32,
    b: u32,
) -> u64
    ensures { result ≡ reached_code (conjugate_answer table.now (handle start room n count) (record { 0 = a }) (record { 0 = b })) }
{
    let f = factor_of(start, room, n, count);
    reached_code(factor::conjugate(table, f, GroupElementId(a), GroupElementId(b)))
}

// Answers the inverse of a. Refuses as hg_conjugate does.
pub fn hg_inverse(table: &[u32], start: usize, room: u32, n: u8, count: u32, a: u32) -> u64
    ensures { result ≡ reached_code (inverse_answer table.now (handle start room n count) (record { 0 = a })) }
{
    reached_code(factor::inverse(table, factor_of(start, room, n, count), GroupElementId(a)))
}

// Checks the factor against pair orders and writes the verdict into out. Refuses in this order: 4 for an out shorter than 4, 17 for a handle that
// does not fit, 2 for a list of the wrong length, 3 for the first order out of range, then 13 for a relation that fails or 17 for a number read that
// is out of range, as met.
#[tactic(auto, using(capi_values::proofs::Laws::out_short))]
pub fn hg_check(
    table: &[u32],
    start: usize,
    room: u32,
    n: u8,
    count: u32,
    orders: &[u32],
    out: &mut [u32],
) -> u32
    ensures { telling result out.new [] ≡ in_out 4 out.old [] (verdict_told (check_answer table.now (handle start room n count) orders.now) out.old) }
{
    if out.len() < 4 {
        return 4;
    }
    write_verdict(
        out,
        factor::check(table, factor_of(start, room, n, count), orders),
    )
}
