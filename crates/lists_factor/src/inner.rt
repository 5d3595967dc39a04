// The places of lists, into a list of our own, so that a refused call has written nothing: all at once where that serves, else
// one after another. Slices are passed on as `&s[..]`, since a slice parameter that is passed on as it is would be copied first.
ghost use Rattle.std.specs.Prelude.{◌≡◌, true, ◌+◌, ◌*◌, ◌<◌, ◌≤◌, length};
ghost use Rattle.egg.specs.Table.{inverse_of};
ghost use Rattle.lists.specs.Lists.{Answered, each_place};
ghost use Rattle.lists.specs.Worked.{Worked, WorkedFrom, AllRight};
ghost use Rattle.factor.specs.Questions.{compose_answer};
ghost use Rattle.lists_factor.specs.Each.{compose_at, inverse_at, powi_at};

use egg::{Factor, GroupElementId};
use lists::ListRefusal;

// All the products at once, by walks that go on side by side: whether each was found. Where one was not, `results` may hold anything.
pub fn side_by_side(table: &[u32], f: Factor, a: &[u32], b: &[u32], results: &mut [u32]) -> bool
    requires { (length b.now ≡ length a.now) × (length a.now ≤ length results.old) }
    ensures { result ≡ true → AllRight (length a.now) (compose_at table.now f a.now b.now) results.new }
{
    if !egg::fits(&table[..], f) {
        return false;
    }
    let s = egg::inner::part(&table[..], f);
    lists_walks::inner::products(s, f.generators, f.elements, &a[..], &b[..], results)
}

fn compose_in_turn(
    table: &[u32],
    f: Factor,
    a: &[u32],
    b: &[u32],
    results: &mut [u32],
) -> Result<(), ListRefusal>
    requires { (length b.now ≡ length a.now) × (length a.now ≤ length results.old) }
    ensures { Worked (length a.now) (compose_at table.now f a.now b.now) result results.new }
{
    for i in 0..a.len() {
        let product = factor::compose(&table[..], f, GroupElementId(a[i]), GroupElementId(b[i]));
        let e = lists::inner::at_place(i, product)?;
        results[i] = e.0;
    }
    Ok(())
}

// What the quick walks do not find is asked place by place: then it is known which place is refused, and why.
fn compose_into(
    table: &[u32],
    f: Factor,
    a: &[u32],
    b: &[u32],
    results: &mut [u32],
) -> Result<(), ListRefusal>
    requires { (length b.now ≡ length a.now) × (length a.now ≤ length results.old) }
    ensures { Worked (length a.now) (compose_at table.now f a.now b.now) result results.new }
{
    if side_by_side(&table[..], f, &a[..], &b[..], results) {
        return Ok(());
    }
    compose_in_turn(&table[..], f, &a[..], &b[..], results)
}

fn compose_by(
    table: &[u32],
    f: Factor,
    a: &[u32],
    b: &[u32],
    results: &mut [u32],
    out: &mut [u32],
) -> Result<(), ListRefusal>
    requires { (length b.now ≡ length a.now) × ((length out.old ≡ length a.now) × (length a.now ≤ length results.old)) }
    ensures { Answered.answered result out.new ≡ each_place (length a.now) (compose_at table.now f a.now b.now) out.old }
{
    let said = compose_into(&table[..], f, &a[..], &b[..], results);
    lists::inner::hand_over(said, results, out)
}

// The places from i on, a piece at a time. A piece's results wait in a list of our own until those behind it are known to be right: it is as long as a piece,
// so that a list of few pieces has few of them.
fn compose_from(
    table: &[u32],
    f: Factor,
    a: &[u32],
    b: &[u32],
    i: usize,
    out: &mut [u32],
) -> Result<(), ListRefusal>
    requires { (length b.now ≡ length a.now) × (length out.old ≡ length a.now) }
    ensures { WorkedFrom i (length a.now) (compose_at table.now f a.now b.now) out.old result out.new }
{
    if a.len() <= i {
        return Ok(());
    }
    let end = lists::inner::chunk_end(i, a.len(), 256);
    let mut piece = [0; 256];
    let said = compose_into(&table[..], f, &a[i..end], &b[i..end], &mut piece);
    if let Err(why) = said {
        return Err(lists::inner::behind(i, why));
    }
    let later = compose_from(&table[..], f, &a[..], &b[..], end, out);
    lists::inner::hand_over_piece(later, &piece, i, end, out)
}

pub fn compose_several(
    table: &[u32],
    f: Factor,
    a: &[u32],
    b: &[u32],
    out: &mut [u32],
) -> Result<(), ListRefusal>
    requires { (length b.now ≡ length a.now) × (length out.old ≡ length a.now) }
    ensures { Answered.answered result out.new ≡ each_place (length a.now) (compose_at table.now f a.now b.now) out.old }
{
    if a.len() <= 64 {
        let mut few = [0; 64];
        return compose_by(&table[..], f, &a[..], &b[..], &mut few, out);
    }
    compose_from(&table[..], f, &a[..], &b[..], 0, out)
}

// The number of one product; the count of elements where it is refused.
fn product_at_once(table: &[u32], f: Factor, a: u32, b: u32) -> u32
    ensures { result < f.elements → compose_answer table.now f (record { 0 = a }) (record { 0 = b }) ≡ Ok (record { 0 = result }) }
{
    let count = f.elements;
    if !egg::fits(&table[..], f) {
        return count;
    }
    if count <= a {
        return count;
    }
    if count <= b {
        return count;
    }
    let s = egg::inner::part(&table[..], f);
    lists_walks::inner::number(s, f.generators, count, GroupElementId(a), GroupElementId(b))
}

// One place: where it has a product, no list of our own comes between.
pub fn compose_one(
    table: &[u32],
    f: Factor,
    a: &[u32],
    b: &[u32],
    out: &mut [u32],
) -> Result<(), ListRefusal>
    requires { (length a.now ≡ 1) × ((length b.now ≡ length a.now) × (length out.old ≡ length a.now)) }
    ensures { Answered.answered result out.new ≡ each_place (length a.now) (compose_at table.now f a.now b.now) out.old }
{
    let product = product_at_once(&table[..], f, a[0], b[0]);
    if product < f.elements {
        out[0] = product;
        return Ok(());
    }
    compose_several(&table[..], f, &a[..], &b[..], out)
}

// Whether the places are so few that each is best asked by itself, and no walks go side by side.
pub fn few(count: u32, places: usize) -> bool
    ensures { result ≡ true → places ≤ 32 }
{
    if 32 < places {
        return false;
    }
    !lists_walks::inner::worth_lanes(count, places)
}

// The products one by one: whether each was found. As `side_by_side`.
fn one_by_one(table: &[u32], f: Factor, a: &[u32], b: &[u32], results: &mut [u32]) -> bool
    requires { (length b.now ≡ length a.now) × (length a.now ≤ length results.old) }
    ensures { result ≡ true → AllRight (length a.now) (compose_at table.now f a.now b.now) results.new }
{
    for i in 0..a.len() {
        let product = product_at_once(&table[..], f, a[i], b[i]);
        if f.elements <= product {
            return false;
        }
        results[i] = product;
    }
    true
}

pub fn compose_few(
    table: &[u32],
    f: Factor,
    a: &[u32],
    b: &[u32],
    out: &mut [u32],
) -> Result<(), ListRefusal>
    requires { (length a.now ≤ 32) × ((length b.now ≡ length a.now) × (length out.old ≡ length a.now)) }
    ensures { Answered.answered result out.new ≡ each_place (length a.now) (compose_at table.now f a.now b.now) out.old }
{
    let mut results = [0; 32];
    if one_by_one(&table[..], f, &a[..], &b[..], &mut results) {
        return lists::inner::hand_over(Ok(()), &results, out);
    }
    compose_several(&table[..], f, &a[..], &b[..], out)
}

// The number of the inverse that stands in the row of x; the count of elements where there is none.
fn inverse_number(s: &[u32], n: u8, count: u32, x: u32) -> u32
    requires { count * (2 * n + 4) ≤ length s.now }
    ensures { result < count → (x < count) × (result ≡ inverse_of s.now n x) }
{
    if count <= x {
        return count;
    }
    factor_quick_walks::inner::recorded(s, n, count, GroupElementId(x), 3)
}

// How many inverses from the first place on are found by the numbers in the rows: all, or those before a place that is refused. The handle is looked at
// once, and what stands in a row is read with no test. Apart, so that the loop's jumps lie as they do whatever is before it: across a border of 32 bytes
// some processors take twice the time.
#[inline(never)]
fn inverses_found(table: &[u32], f: Factor, a: &[u32], results: &mut [u32]) -> usize
    requires { length a.now ≤ length results.old }
    ensures { (result ≤ length a.now) × AllRight result (inverse_at table.now f a.now) results.new }
{
    if !egg::fits(&table[..], f) {
        return 0;
    }
    let s = egg::inner::part(&table[..], f);
    let count = f.elements;
    for i in 0..a.len() {
        let inverse = inverse_number(s, f.generators, count, a[i]);
        if count <= inverse {
            return i;
        }
        results[i] = inverse;
    }
    a.len()
}

// What is not found is asked place by place: then it is known why. Apart, so that a list without a refusal need not put an answer together in memory.
#[inline(never)]
fn inverse_in_turn(
    table: &[u32],
    f: Factor,
    a: &[u32],
    found: usize,
    results: &mut [u32],
) -> Result<(), ListRefusal>
    requires { (found ≤ length a.now) × ((length a.now ≤ length results.old) × AllRight found (inverse_at table.now f a.now) results.old) }
    ensures { Worked (length a.now) (inverse_at table.now f a.now) result results.new }
{
    for i in found..a.len() {
        let said = factor::inverse(&table[..], f, GroupElementId(a[i]));
        let e = lists::inner::at_place(i, said)?;
        results[i] = e.0;
    }
    Ok(())
}

#[inline(always)]
pub fn inverse_into(
    table: &[u32],
    f: Factor,
    a: &[u32],
    results: &mut [u32],
) -> Result<(), ListRefusal>
    requires { length a.now ≤ length results.old }
    ensures { Worked (length a.now) (inverse_at table.now f a.now) result results.new }
{
    let found = inverses_found(&table[..], f, &a[..], results);
    if a.len() <= found {
        return Ok(());
    }
    inverse_in_turn(&table[..], f, &a[..], found, results)
}

pub fn inverse_by(
    table: &[u32],
    f: Factor,
    a: &[u32],
    results: &mut [u32],
    out: &mut [u32],
) -> Result<(), ListRefusal>
    requires { (length out.old ≡ length a.now) × (length a.now ≤ length results.old) }
    ensures { Answered.answered result out.new ≡ each_place (length a.now) (inverse_at table.now f a.now) out.old }
{
    let said = inverse_into(&table[..], f, &a[..], results);
    lists::inner::hand_over(said, results, out)
}

// One place that is not found. Apart, as `inverse_in_turn`.
#[inline(never)]
fn inverse_asked(table: &[u32], f: Factor, a: &[u32], out: &mut [u32]) -> Result<(), ListRefusal>
    requires { (length a.now ≡ 1) × (length out.old ≡ length a.now) }
    ensures { Answered.answered result out.new ≡ each_place (length a.now) (inverse_at table.now f a.now) out.old }
{
    let said = factor::inverse(&table[..], f, GroupElementId(a[0]));
    lists::inner::hand_over_one(said, out)
}

// One place: where it has an inverse, no list of our own comes between.
pub fn inverse_one(table: &[u32], f: Factor, a: &[u32], out: &mut [u32]) -> Result<(), ListRefusal>
    requires { (length a.now ≡ 1) × (length out.old ≡ length a.now) }
    ensures { Answered.answered result out.new ≡ each_place (length a.now) (inverse_at table.now f a.now) out.old }
{
    if !egg::fits(&table[..], f) {
        return inverse_asked(&table[..], f, &a[..], out);
    }
    let s = egg::inner::part(&table[..], f);
    let inverse = inverse_number(s, f.generators, f.elements, a[0]);
    if inverse < f.elements {
        out[0] = inverse;
        return Ok(());
    }
    inverse_asked(&table[..], f, &a[..], out)
}

// As `compose_from`.
pub fn inverse_from(
    table: &[u32],
    f: Factor,
    a: &[u32],
    i: usize,
    out: &mut [u32],
) -> Result<(), ListRefusal>
    requires { length out.old ≡ length a.now }
    ensures { WorkedFrom i (length a.now) (inverse_at table.now f a.now) out.old result out.new }
{
    if a.len() <= i {
        return Ok(());
    }
    let end = lists::inner::chunk_end(i, a.len(), 256);
    let mut piece = [0; 256];
    let said = inverse_into(&table[..], f, &a[i..end], &mut piece);
    if let Err(why) = said {
        return Err(lists::inner::behind(i, why));
    }
    let later = inverse_from(&table[..], f, &a[..], end, out);
    lists::inner::hand_over_piece(later, &piece, i, end, out)
}

// All the powers at once, in step: as `side_by_side` for products, but only where four walks are quicker than one: in step each place has two products for
// every bit, where alone it has one for a bit that is 0.
fn in_step(table: &[u32], f: Factor, a: &[u32], exponents: &[i32], results: &mut [u32]) -> bool
    requires { (length exponents.now ≡ length a.now) × (length a.now ≤ length results.old) }
    ensures { result ≡ true → AllRight (length a.now) (powi_at table.now f a.now exponents.now) results.new }
{
    if !lists_walks::inner::worth_lanes(f.elements, a.len()) {
        return false;
    }
    if !egg::fits(&table[..], f) {
        return false;
    }
    let s = egg::inner::part(&table[..], f);
    lists_powers::inner::powers(s, f.generators, f.elements, &a[..], &exponents[..], results)
}

fn powi_in_turn(
    table: &[u32],
    f: Factor,
    a: &[u32],
    exponents: &[i32],
    results: &mut [u32],
) -> Result<(), ListRefusal>
    requires { (length exponents.now ≡ length a.now) × (length a.now ≤ length results.old) }
    ensures { Worked (length a.now) (powi_at table.now f a.now exponents.now) result results.new }
{
    for i in 0..a.len() {
        let k = lists::inner::exponent(exponents, i);
        let said = group_powers::inner::one::powi(&table[..], f, GroupElementId(a[i]), k);
        let e = lists::inner::at_place(i, said)?;
        results[i] = e.0;
    }
    Ok(())
}

pub fn powi_into(
    table: &[u32],
    f: Factor,
    a: &[u32],
    exponents: &[i32],
    results: &mut [u32],
) -> Result<(), ListRefusal>
    requires { (length exponents.now ≡ length a.now) × (length a.now ≤ length results.old) }
    ensures { Worked (length a.now) (powi_at table.now f a.now exponents.now) result results.new }
{
    if in_step(&table[..], f, &a[..], &exponents[..], results) {
        return Ok(());
    }
    powi_in_turn(&table[..], f, &a[..], &exponents[..], results)
}

pub fn powi_by(
    table: &[u32],
    f: Factor,
    a: &[u32],
    exponents: &[i32],
    results: &mut [u32],
    out: &mut [u32],
) -> Result<(), ListRefusal>
    requires { (length exponents.now ≡ length a.now) × ((length out.old ≡ length a.now) × (length a.now ≤ length results.old)) }
    ensures { Answered.answered result out.new ≡ each_place (length a.now) (powi_at table.now f a.now exponents.now) out.old }
{
    let said = powi_into(&table[..], f, &a[..], &exponents[..], results);
    lists::inner::hand_over(said, results, out)
}
