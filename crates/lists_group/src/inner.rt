// The places of lists, into a list of our own, so that a refused call has written nothing: all at once where that serves, else
// one after another. Slices are passed on as `&s[..]`, since a slice parameter that is passed on as it is would be copied first.
ghost use Rattle.std.specs.Prelude.{◌≡◌, true, ◌≤◌, length};
ghost use Rattle.lists.specs.Lists.{Answered, each_place};
ghost use Rattle.lists.specs.Worked.{Worked, AllRight, WorkedFrom};
ghost use Rattle.lists_group.specs.Each.{compose_at, inverse_at, powi_at};

use egg::GroupElementId;
use group_handles::Group;
use lists::ListRefusal;

pub mod chunks;

// All the products at once, by walks that go on side by side: whether each was found. Where one was not, `results` may hold anything. A product of one factor
// is asked as the factor is; else its handles are looked at once, and not at each place.
fn side_by_side(table: &[u32], g: Group, a: &[u32], b: &[u32], results: &mut [u32]) -> bool
    requires { (length b.now ≡ length a.now) × (length a.now ≤ length results.old) }
    ensures { result ≡ true → AllRight (length a.now) (compose_at table.now g a.now b.now) results.new }
{
    if group_handles::inner::alone(g) {
        let h = g.factors[0];
        return lists_factor::inner::side_by_side(&table[..], h, &a[..], &b[..], results);
    }
    let seen = group_handles::inner::look(&table[..], g);
    let Ok(()) = group_handles::inner::admit_none_seen(seen, g.count) else {
        return false;
    };
    let elements = (seen.elements % 4294967296) as u32;
    chunks::in_chunks(&table[..], g, elements, &a[..], &b[..], results)
}

fn compose_in_turn(
    table: &[u32],
    g: Group,
    a: &[u32],
    b: &[u32],
    results: &mut [u32],
) -> Result<(), ListRefusal>
    requires { (length b.now ≡ length a.now) × (length a.now ≤ length results.old) }
    ensures { Worked (length a.now) (compose_at table.now g a.now b.now) result results.new }
{
    for i in 0..a.len() {
        let said = group::compose(&table[..], g, GroupElementId(a[i]), GroupElementId(b[i]));
        let e = lists::inner::at_place(i, said)?;
        results[i] = e.0;
    }
    Ok(())
}

// What the quick walks do not find is asked place by place: then it is known which place is refused, and why.
fn compose_into(
    table: &[u32],
    g: Group,
    a: &[u32],
    b: &[u32],
    results: &mut [u32],
) -> Result<(), ListRefusal>
    requires { (length b.now ≡ length a.now) × (length a.now ≤ length results.old) }
    ensures { Worked (length a.now) (compose_at table.now g a.now b.now) result results.new }
{
    if side_by_side(&table[..], g, &a[..], &b[..], results) {
        return Ok(());
    }
    compose_in_turn(&table[..], g, &a[..], &b[..], results)
}

pub fn compose_by(
    table: &[u32],
    g: Group,
    a: &[u32],
    b: &[u32],
    results: &mut [u32],
    out: &mut [u32],
) -> Result<(), ListRefusal>
    requires { (length b.now ≡ length a.now) × ((length out.old ≡ length a.now) × (length a.now ≤ length results.old)) }
    ensures { Answered.answered result out.new ≡ each_place (length a.now) (compose_at table.now g a.now b.now) out.old }
{
    let said = compose_into(&table[..], g, &a[..], &b[..], results);
    lists::inner::hand_over(said, results, out)
}

// The places from i on, a piece at a time. A piece's results wait in a list of our own until those behind it are known to be right: it is as long as a piece,
// so that a list of few pieces has few of them.
pub fn compose_from(
    table: &[u32],
    g: Group,
    a: &[u32],
    b: &[u32],
    i: usize,
    out: &mut [u32],
) -> Result<(), ListRefusal>
    requires { (length b.now ≡ length a.now) × (length out.old ≡ length a.now) }
    ensures { WorkedFrom i (length a.now) (compose_at table.now g a.now b.now) out.old result out.new }
{
    if a.len() <= i {
        return Ok(());
    }
    let end = lists::inner::chunk_end(i, a.len(), 256);
    let mut piece = [0; 256];
    let said = compose_into(&table[..], g, &a[i..end], &b[i..end], &mut piece);
    if let Err(why) = said {
        return Err(lists::inner::behind(i, why));
    }
    let later = compose_from(&table[..], g, &a[..], &b[..], end, out);
    lists::inner::hand_over_piece(later, &piece, i, end, out)
}

// All the inverses at once: its handles are looked at once, and not at each place. As `side_by_side` for products.
fn inverses_at_once(table: &[u32], g: Group, a: &[u32], results: &mut [u32]) -> bool
    requires { length a.now ≤ length results.old }
    ensures { result ≡ true → AllRight (length a.now) (inverse_at table.now g a.now) results.new }
{
    let seen = group_handles::inner::look(&table[..], g);
    let Ok(()) = group_handles::inner::admit_none_seen(seen, g.count) else {
        return false;
    };
    let elements = (seen.elements % 4294967296) as u32;
    chunks::inverses_in_chunks(&table[..], g, elements, &a[..], results)
}

fn inverse_in_turn(
    table: &[u32],
    g: Group,
    a: &[u32],
    results: &mut [u32],
) -> Result<(), ListRefusal>
    requires { length a.now ≤ length results.old }
    ensures { Worked (length a.now) (inverse_at table.now g a.now) result results.new }
{
    for i in 0..a.len() {
        let said = group::inverse(&table[..], g, GroupElementId(a[i]));
        let e = lists::inner::at_place(i, said)?;
        results[i] = e.0;
    }
    Ok(())
}

// A product of one factor is asked as the factor is.
fn inverse_into(table: &[u32], g: Group, a: &[u32], results: &mut [u32]) -> Result<(), ListRefusal>
    requires { length a.now ≤ length results.old }
    ensures { Worked (length a.now) (inverse_at table.now g a.now) result results.new }
{
    if group_handles::inner::alone(g) {
        let h = g.factors[0];
        return lists_factor::inner::inverse_into(&table[..], h, &a[..], results);
    }
    if inverses_at_once(&table[..], g, &a[..], results) {
        return Ok(());
    }
    inverse_in_turn(&table[..], g, &a[..], results)
}

pub fn inverse_by(
    table: &[u32],
    g: Group,
    a: &[u32],
    results: &mut [u32],
    out: &mut [u32],
) -> Result<(), ListRefusal>
    requires { (length out.old ≡ length a.now) × (length a.now ≤ length results.old) }
    ensures { Answered.answered result out.new ≡ each_place (length a.now) (inverse_at table.now g a.now) out.old }
{
    let said = inverse_into(&table[..], g, &a[..], results);
    lists::inner::hand_over(said, results, out)
}

// As `compose_from`.
pub fn inverse_from(
    table: &[u32],
    g: Group,
    a: &[u32],
    i: usize,
    out: &mut [u32],
) -> Result<(), ListRefusal>
    requires { length out.old ≡ length a.now }
    ensures { WorkedFrom i (length a.now) (inverse_at table.now g a.now) out.old result out.new }
{
    if a.len() <= i {
        return Ok(());
    }
    let end = lists::inner::chunk_end(i, a.len(), 256);
    let mut piece = [0; 256];
    let said = inverse_into(&table[..], g, &a[i..end], &mut piece);
    if let Err(why) = said {
        return Err(lists::inner::behind(i, why));
    }
    let later = inverse_from(&table[..], g, &a[..], end, out);
    lists::inner::hand_over_piece(later, &piece, i, end, out)
}

fn powi_in_turn(
    table: &[u32],
    g: Group,
    a: &[u32],
    exponents: &[i32],
    results: &mut [u32],
) -> Result<(), ListRefusal>
    requires { (length exponents.now ≡ length a.now) × (length a.now ≤ length results.old) }
    ensures { Worked (length a.now) (powi_at table.now g a.now exponents.now) result results.new }
{
    for i in 0..a.len() {
        let k = lists::inner::exponent(exponents, i);
        let said = group::powi(&table[..], g, GroupElementId(a[i]), k);
        let e = lists::inner::at_place(i, said)?;
        results[i] = e.0;
    }
    Ok(())
}

fn powi_into(
    table: &[u32],
    g: Group,
    a: &[u32],
    exponents: &[i32],
    results: &mut [u32],
) -> Result<(), ListRefusal>
    requires { (length exponents.now ≡ length a.now) × (length a.now ≤ length results.old) }
    ensures { Worked (length a.now) (powi_at table.now g a.now exponents.now) result results.new }
{
    if group_handles::inner::alone(g) {
        let h = g.factors[0];
        return lists_factor::inner::powi_into(&table[..], h, &a[..], &exponents[..], results);
    }
    powi_in_turn(&table[..], g, &a[..], &exponents[..], results)
}

pub fn powi_by(
    table: &[u32],
    g: Group,
    a: &[u32],
    exponents: &[i32],
    results: &mut [u32],
    out: &mut [u32],
) -> Result<(), ListRefusal>
    requires { (length exponents.now ≡ length a.now) × ((length out.old ≡ length a.now) × (length a.now ≤ length results.old)) }
    ensures { Answered.answered result out.new ≡ each_place (length a.now) (powi_at table.now g a.now exponents.now) out.old }
{
    let said = powi_into(&table[..], g, &a[..], &exponents[..], results);
    lists::inner::hand_over(said, results, out)
}
