// The calls on direct products of factors, from group.rs. A product is a value: up to eight handles of factors that stand in one table buffer. An
// element of it is numbered by its digits, one element of each factor, of which the first factor's is the fastest. Every call checks, in this order:
// 17 for each handle, 14 for its arguments, 15 for a product too large (more than 8 factors or 4,294,967,295 elements), 1 and 4 for what a build is
// given and lent, and then 17 for each number that it reads. Where a product has one factor alone, that factor is asked itself, since there is
// nothing to split.
#![tactic(auto)]

ghost use Rattle.std.specs.Prelude.{◌≡◌, length};
ghost use Rattle.build_lending.specs.Lending.{Making};
ghost use Rattle.group.specs.Questions.{count_answer, generators_answer, generator_answer, step_answer, walk_answer, project_answer, inject_answer, split_answer, split_leaves, join_answer, compose_answer, inverse_answer, conjugate_answer, powi_answer, period_answer, length_answer, write_answer, written, word_part};
ghost use Rattle.group_flatten.specs.Flat.{flat};

use egg::{Factor, GeneratorId, GroupElementId, Refusal};
use group_handles::inner::Limit;
pub use group_handles::{Group, of, product, trivial};

// Answers how many elements the product has. Refuses in this order: 17 for a handle that does not fit, 15 for a product too large.
pub fn element_count(table: &[u32], g: Group) -> Result<u32, Refusal>
    ensures { result ≡ count_answer table.now g }
{
    let seen = group_handles::inner::look(table, g);
    group_handles::inner::admit_none_seen(seen, g.count)?;
    Ok((seen.elements % 4294967296) as u32)
}

// Answers how many generators the factors have together. Refuses in this order: 17 for a handle that does not fit, 15 for a product too large.
pub fn generator_count(table: &[u32], g: Group) -> Result<u32, Refusal>
    ensures { result ≡ generators_answer table.now g }
{
    let seen = group_handles::inner::look(table, g);
    group_handles::inner::admit_none_seen(seen, g.count)?;
    Ok(seen.generators)
}

// Answers the element that the generator x is. Refuses in this order: 17 for a handle that does not fit, 14 for a generator out of range, 15 for a
// product too large, 17 for a number read that is out of range.
pub fn generator(table: &[u32], g: Group, x: GeneratorId) -> Result<GroupElementId, Refusal>
    ensures { result ≡ generator_answer table.now g x }
{
    if group_handles::inner::alone(g) {
        return factor::generator(table, g.factors[0], x);
    }
    group_handles::inner::admit_one(table, g, x.0 as u32, Limit::Generators)?;
    group_digits::inner::step_in(table, g, GroupElementId(0), x)
}

// Answers the step from e by the generator x. Refuses in this order: 17 for a handle that does not fit, 14 for an element or a generator out of
// range, 15 for a product too large, 17 for a number read that is out of range.
pub fn step(
    table: &[u32],
    g: Group,
    e: GroupElementId,
    x: GeneratorId,
) -> Result<GroupElementId, Refusal>
    ensures { result ≡ step_answer table.now g e x }
{
    if group_handles::inner::alone(g) {
        return egg::step(table, g.factors[0], e, x);
    }
    group_handles::inner::admit(
        table,
        g,
        e.0,
        Limit::Elements,
        x.0 as u32,
        Limit::Generators,
    )?;
    group_digits::inner::step_in(table, g, e, x)
}

// Answers the element to which the generators of a word lead from an element, one after another; an empty word leads to the element itself. Refuses in
// this order: 17 for a handle that does not fit, 14 for an element (place 0) or the first letter (the one at i has place i + 1) out of range, 15 for a
// product too large, 17 for a number read that is out of range.
pub fn walk(
    table: &[u32],
    g: Group,
    from: GroupElementId,
    word: &[u8],
) -> Result<GroupElementId, Refusal>
    ensures { result ≡ walk_answer table.now g from word.now }
{
    if group_handles::inner::alone(g) {
        return factor::walk(table, g.factors[0], from, word);
    }
    group_walk::inner::walk(table, g, from, word)
}

// Answers the element that e has in the factor f. Refuses in this order: 17 for a handle that does not fit, 14 for a factor or an element out of
// range, 15 for a product too large.
pub fn project(table: &[u32], g: Group, f: u8, e: GroupElementId) -> Result<GroupElementId, Refusal>
    ensures { result ≡ project_answer table.now g f e }
{
    let k = group_handles::inner::listed(g);
    group_handles::inner::admit(
        table,
        g,
        f as u32,
        Limit::Number(k as u32),
        e.0,
        Limit::Elements,
    )?;
    group_digits::inner::project_in(g, f as usize, e)
}

// Answers the element that is x in the factor f, and the identity in the others. Refuses in this order: 17 for a handle that does not fit, 14 for a
// factor that is not there or an x that is no element of it, 15 for a product too large.
pub fn inject(table: &[u32], g: Group, f: u8, x: GroupElementId) -> Result<GroupElementId, Refusal>
    ensures { result ≡ inject_answer table.now g f x }
{
    let n = group_handles::inner::size_of(g, f as usize);
    let k = group_handles::inner::listed(g);
    group_handles::inner::admit(
        table,
        g,
        f as u32,
        Limit::Number(k as u32),
        x.0,
        Limit::Number(n),
    )?;
    group_digits::inner::inject_in(g, f as usize, x)
}

// Writes the digits of e, its elements in each factor, to the start of a lent list, and answers how many they are. Refuses in this order: 17 for a
// handle that does not fit, 14 for an element out of range, 15 for a product too large, 4 for a short list.
pub fn split(table: &[u32], g: Group, e: GroupElementId, out: &mut [u32]) -> Result<u32, Refusal>
    ensures { (result ≡ split_answer table.now g e (length out.old)) × (out.new ≡ split_leaves table.now g e out.old) }
{
    group_handles::inner::admit_one(table, g, e.0, Limit::Elements)?;
    group_digits::inner::split_in(g, e, out)
}

// Answers the element whose digits the list starts with. Refuses in this order: 17 for a handle that does not fit, 14 for the first digit out of
// range, 15 for a product too large, 4 for a list with fewer digits than there are factors.
pub fn join(table: &[u32], g: Group, digits: &[u32]) -> Result<GroupElementId, Refusal>
    ensures { result ≡ join_answer table.now g digits.now }
{
    let seen = group_handles::inner::look(table, g);
    if !seen.fit {
        return Err(Refusal::Unreadable);
    }
    group_digits::inner::digits_right(g, digits)?;
    group_digits::inner::join_in(g, seen.elements, digits)
}

// Answers a·b. Refuses in this order: 17 for a handle that does not fit, 14 for an element out of range, 15 for a product too large, 17 for a number
// read that is out of range.
pub fn compose(
    table: &[u32],
    g: Group,
    a: GroupElementId,
    b: GroupElementId,
) -> Result<GroupElementId, Refusal>
    ensures { result ≡ compose_answer table.now g a b }
{
    if group_handles::inner::alone(g) {
        return factor::compose(table, g.factors[0], a, b);
    }
    group_handles::inner::admit(table, g, a.0, Limit::Elements, b.0, Limit::Elements)?;
    group_digits::inner::compose_digits(table, g, a, b)
}

// Answers the inverse of a. Refuses in this order: 17 for a handle that does not fit, 14 for an element out of range, 15 for a product too large, 17
// for a number read that is out of range.
pub fn inverse(table: &[u32], g: Group, a: GroupElementId) -> Result<GroupElementId, Refusal>
    ensures { result ≡ inverse_answer table.now g a }
{
    if group_handles::inner::alone(g) {
        return factor::inverse(table, g.factors[0], a);
    }
    group_handles::inner::admit_one(table, g, a.0, Limit::Elements)?;
    group_digits::inner::inverse_digits(table, g, a)
}

// Answers a·b·a⁻¹. Refuses as `compose` does.
pub fn conjugate(
    table: &[u32],
    g: Group,
    a: GroupElementId,
    b: GroupElementId,
) -> Result<GroupElementId, Refusal>
    ensures { result ≡ conjugate_answer table.now g a b }
{
    if group_handles::inner::alone(g) {
        return factor::conjugate(table, g.factors[0], a, b);
    }
    group_handles::inner::admit(table, g, a.0, Limit::Elements, b.0, Limit::Elements)?;
    group_digits::inner::conjugate_digits(table, g, a, b)
}

// Answers the i-th power of a, the inverse's power where i is negative. Refuses as `inverse` does.
pub fn powi(table: &[u32], g: Group, a: GroupElementId, i: i32) -> Result<GroupElementId, Refusal>
    ensures { result ≡ powi_answer table.now g a i }
{
    if group_handles::inner::alone(g) {
        return group_powers::inner::one::powi(table, g.factors[0], a, i);
    }
    group_handles::inner::admit_one(table, g, a.0, Limit::Elements)?;
    group_powers::inner::powi_in(table, g, a, i)
}

// Answers the period of a, which is 1 for the identity. Refuses as `inverse` does, and with 17 where, in a factor of N elements, none of the first N
// powers of a's digit is the identity.
pub fn period(table: &[u32], g: Group, a: GroupElementId) -> Result<u32, Refusal>
    ensures { result ≡ period_answer table.now g a }
{
    group_handles::inner::admit_one(table, g, a.0, Limit::Elements)?;
    group_periods::inner::periods(table, g, a)
}

// Answers how long the word of e is. Refuses in this order: 17 for a handle that does not fit, 14 for an element out of range, 15 for a product too
// large, 17 for a recorded length over 4,096.
pub fn word_length(table: &[u32], g: Group, e: GroupElementId) -> Result<u32, Refusal>
    ensures { result ≡ length_answer table.now g e }
{
    if group_handles::inner::alone(g) {
        return factor::word_length(table, g.factors[0], e);
    }
    group_handles::inner::admit_one(table, g, e.0, Limit::Elements)?;
    group_words::inner::lengths(table, g, e)
}

// Writes the word of e to the start of a lent byte buffer and answers its length. Refuses as `word_length` does, then with 4 a buffer that is short,
// then with 17 a cell of letters that is out of range.
pub fn write_word(
    table: &[u32],
    g: Group,
    e: GroupElementId,
    out: &mut [u8],
) -> Result<u32, Refusal>
    ensures { (result ≡ write_answer table.now g e (length out.old)) × (out.new ≡ written table.now g e out.old) }
{
    if group_handles::inner::alone(g) {
        return factor::write_word(table, g.factors[0], e, out);
    }
    group_handles::inner::admit_one(table, g, e.0, Limit::Elements)?;
    group_words::inner::write_in(table, g, e, out)
}

// The same as `write_word`, but hands back the filled part of the buffer. Where it refuses this is the empty start, and `write_word` tells the
// number.
pub fn word<'a>(table: &[u32], g: Group, e: GroupElementId, out: &'a mut [u8]) -> &'a mut [u8]
    ensures { result.now ≡ word_part table.now g e out.old }
{
    match write_word(table, g, e, out) {
        Ok(len) => &mut out[..len as usize],
        Err(_) => &mut out[..0],
    }
}

// Builds one factor that is the product, with its numbers, into the stretch of `table` that starts at `start`. Refuses in this order: 17 for a handle
// that does not fit, 15 for a product too large, 1 for more than 8 generators, 4 for a room out of range or a short buffer; then as any build does,
// and with 17 a number read that is out of range.
pub fn flatten(
    from: &[u32],
    g: Group,
    table: &mut [u32],
    start: usize,
    work: &mut [u32],
    room: u32,
) -> Result<Factor, Refusal>
    ensures { Making.making result table.new work.new ≡ flat from.now g table.old start work.old room }
{
    group_handles::inner::admit(from, g, 0, Limit::Number(1), 0, Limit::Number(1))?;
    group_flatten::inner::flat_into(from, g, table, start, work, room)
}
