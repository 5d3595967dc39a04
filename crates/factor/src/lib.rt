// From abstract_group.rs: a checked factor from composed rows, and what may be asked of it.
#![tactic(auto)]

ghost use Rattle.std.specs.Prelude.{◌≡◌, ◌+◌, ◌*◌, ◌<◌, ◌≤◌, length};
ghost use Rattle.build_lending.specs.Lending.{Making};
ghost use Rattle.factor.specs.Composed.{composed};
ghost use Rattle.factor.specs.Questions.{compose_answer, inverse_answer, conjugate_answer, count_answer, generator_answer, walk_answer, length_answer, write_answer, written, word_part};
ghost use Rattle.factor.specs.Relations.{check_answer};

use egg::{Factor, GeneratorId, GroupElementId, Refusal};

pub mod inner;

// Makes a factor from composed numbers, and answers its handle. It is `from_compose_fn`, with a lent list of numbers in
// the place of the closure; the factor is built into the stretch of `table` that starts at `start`. Refuses in this
// order: 1 for more than 8 generators; 4 for a room that is 0 or above 65,535, or a table, work or list of rows that is
// too short; then, leaving both stretches zero, 7, 5 or 6 at the first place that cannot be read, and 8 to 12.
pub fn from_composed(
    table: &mut [u32],
    start: usize,
    work: &mut [u32],
    rows: &[u32],
    n: u8,
    room: u32,
) -> Result<Factor, Refusal>
    ensures { Making.making result table.new work.new ≡ composed table.old start work.old rows.now n room }
{
    if 8 < n {
        return Err(Refusal::TooManyGenerators(n as u32));
    }
    if !build_lending::inner::lent_right(table.len(), start, work.len(), room, n) {
        return Err(Refusal::TooShort);
    }
    if rows.len() < (room as usize) * (n as usize) {
        return Err(Refusal::TooShort);
    }
    let end = build_lending::inner::stretch_end(table.len(), start, room, n);
    let need = build_lending::inner::work_need(n, room);
    let count = factor_composed_rows::inner::compose_in(
        &mut table[start..end],
        &mut work[..need],
        rows,
        n,
        room,
    );
    build_lending::inner::made(start, room, n, count)
}

// Answers the number of elements. Refuses 17 for a handle that does not fit.
#[tactic(auto, using(egg::proofs::Refusing::handed_on), unfolding(crate::specs::Questions::count_answer))]
pub fn element_count(table: &[u32], f: Factor) -> Result<u32, Refusal>
    ensures { result ≡ count_answer table.now f }
{
    inner::admit(table, f, GroupElementId(0), GroupElementId(0))?;
    Ok(f.elements)
}

// Answers the element of a generator, which stands in the identity's row. Refuses in this order: 17 for a handle that
// does not fit, 14 for a generator that the factor does not have, 17 for a number read that is out of range.
#[tactic(auto, using(egg::proofs::Refusing::handed_on, crate::proofs::Admits::admitted), unfolding(crate::specs::Questions::generator_answer))]
pub fn generator(table: &[u32], f: Factor, g: GeneratorId) -> Result<GroupElementId, Refusal>
    ensures { result ≡ generator_answer table.now f g }
{
    inner::admit(table, f, GroupElementId(0), GroupElementId(0))?;
    factor_questions::inner::generator_in(egg::inner::part(table, f), f.generators, f.elements, g)
}

// Answers the element to which the generators of a word lead from an element, one after another; an empty word leads to
// the element itself. Refuses in this order: 17 for a handle that does not fit, 14 for an element (place 0) or the first
// letter (the one at i has place i + 1) that the factor does not have, 17 for a number read that is out of range.
#[tactic(auto, using(egg::proofs::Refusing::handed_on, crate::proofs::Admits::admitted), unfolding(crate::specs::Questions::walk_answer))]
pub fn walk(
    table: &[u32],
    f: Factor,
    from: GroupElementId,
    word: &[u8],
) -> Result<GroupElementId, Refusal>
    ensures { result ≡ walk_answer table.now f from word.now }
{
    inner::admit(table, f, from, GroupElementId(0))?;
    factor_walk::inner::walk_in(
        egg::inner::part(table, f),
        f.generators,
        f.elements,
        from,
        word,
    )
}

// Answers the length of the recorded word of e. Refuses in this order: 17 for a handle that does not fit, 14 for an
// element that the factor does not have, 17 for a recorded length over 4,096.
#[tactic(auto, using(egg::proofs::Refusing::handed_on, crate::proofs::Admits::admitted), unfolding(crate::specs::Questions::length_answer))]
pub fn word_length(table: &[u32], f: Factor, e: GroupElementId) -> Result<u32, Refusal>
    ensures { result ≡ length_answer table.now f e }
{
    inner::admit(table, f, e, GroupElementId(0))?;
    factor_words::inner::length_in(egg::inner::part(table, f), f.generators, e)
}

// Answers the inverse of a. Refuses in this order: 17 for a handle that does not fit, 14 for an element that the factor
// does not have, 17 for a number read that is out of range.
#[tactic(auto, using(egg::proofs::Refusing::handed_on, crate::proofs::Admits::admitted), unfolding(crate::specs::Questions::inverse_answer))]
pub fn inverse(table: &[u32], f: Factor, a: GroupElementId) -> Result<GroupElementId, Refusal>
    ensures { result ≡ inverse_answer table.now f a }
{
    inner::admit(table, f, a, GroupElementId(0))?;
    factor_questions::inner::inverse_in(egg::inner::part(table, f), f.generators, f.elements, a)
}

// Answers the product a·b. Refuses in this order: 17 for a handle that does not fit, 14 for the first (place 0) or the
// second (place 1) of two elements that the factor does not have, 17 for a number read that is out of range.
#[tactic(auto, using(egg::proofs::Refusing::handed_on, crate::proofs::Admits::admitted), unfolding(crate::specs::Questions::compose_answer))]
pub fn compose(
    table: &[u32],
    f: Factor,
    a: GroupElementId,
    b: GroupElementId,
) -> Result<GroupElementId, Refusal>
    ensures { result ≡ compose_answer table.now f a b }
{
    inner::admit(table, f, a, b)?;
    factor_compose::inner::compose_elements(
        egg::inner::part(table, f),
        f.generators,
        f.elements,
        a,
        b,
    )
}

// Answers a·b·a⁻¹, and refuses as `compose` does.
#[tactic(auto, using(egg::proofs::Refusing::handed_on, crate::proofs::Admits::admitted), unfolding(crate::specs::Questions::conjugate_answer))]
pub fn conjugate(
    table: &[u32],
    f: Factor,
    a: GroupElementId,
    b: GroupElementId,
) -> Result<GroupElementId, Refusal>
    ensures { result ≡ conjugate_answer table.now f a b }
{
    inner::admit(table, f, a, b)?;
    factor_compose::inner::conjugate_elements(
        egg::inner::part(table, f),
        f.generators,
        f.elements,
        a,
        b,
    )
}

// Writes the recorded word of e into the start of a lent byte buffer, and answers its length. Refuses in this order,
// with nothing written: 17 for a handle that does not fit, 14 for an element that the factor does not have, 17 for a
// recorded length over 4,096, 4 for a buffer that is shorter than the word, 17 for a letter or an element on the word's
// way that is out of range.
#[tactic(auto, using(egg::proofs::Refusing::handed_on, crate::proofs::Admits::admitted), unfolding(crate::specs::Questions::write_answer, crate::specs::Questions::written))]
pub fn write_word(
    table: &[u32],
    f: Factor,
    e: GroupElementId,
    out: &mut [u8],
) -> Result<u32, Refusal>
    ensures { (result ≡ write_answer table.now f e (length out.old)) × (out.new ≡ written table.now f e out.old) }
{
    inner::admit(table, f, e, GroupElementId(0))?;
    factor_words::inner::write_in(egg::inner::part(table, f), f.generators, f.elements, e, out)
}

// Writes the recorded word of e as `write_word` does, and hands the filled part of the buffer back. Where that is
// refused, it is the buffer's empty start, and `write_word` tells the number.
pub fn word<'a>(table: &[u32], f: Factor, e: GroupElementId, out: &'a mut [u8]) -> &'a mut [u8]
    ensures { result.now ≡ word_part table.now f e out.old }
{
    match write_word(table, f, e, out) {
        Ok(len) => &mut out[..len as usize],
        Err(_) => &mut out[..0],
    }
}

// Checks an accepted factor against pair orders. Refuses in this order: 17 for a handle that does not fit, 2 for a list
// of the wrong length, 3 for the first order that is out of its limits; then 13 for the first relation that fails or 17
// for a number read that is out of range, whichever is met first.
#[tactic(auto, using(egg::proofs::Refusing::handed_on), unfolding(crate::specs::Relations::check_answer))]
pub fn check(table: &[u32], f: Factor, orders: &[u32]) -> Result<(), Refusal>
    ensures { result ≡ check_answer table.now f orders.now }
{
    inner::admit(table, f, GroupElementId(0), GroupElementId(0))?;
    factor_relations::inner::orders_right(orders, f.generators)?;
    factor_relations::inner::relations(egg::inner::part(table, f), f.generators, f.elements, orders)
}
