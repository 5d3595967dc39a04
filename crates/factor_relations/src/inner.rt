// Refusals 2 and 3 of a list of pair orders, and refusal 13, a relation that fails, on a factor's own stretch.
ghost use Rattle.std.specs.Prelude.{◌≡◌, ◌≤◌, length};
ghost use Rattle.egg.specs.Pairs.{orders_right};
ghost use Rattle.factor_relations.specs.Relations.{turned, relation_at, doubled_row, pairs_row, relations_row, relations};

use egg::{GeneratorId, GroupElementId, Refusal};

// Refuses 2 where the list is not as long as there are pairs, then 3 for the first order outside 2..32,767.
pub fn orders_right(orders: &[u32], n: u8) -> Result<(), Refusal>
    ensures { result ≡ orders_right orders.now n }
{
    let count = egg::inner::pair_count(n);
    if orders.len() != count as usize {
        return Err(Refusal::OrdersMiscounted);
    }
    for k in 0..count {
        let m = egg::inner::get(orders, k as usize);
        if m < 2 {
            return Err(Refusal::OrderOutside(k));
        }
        if 32767 < m {
            return Err(Refusal::OrderOutside(k));
        }
    }
    Ok(())
}

// Walks from e by a and then b, `times` times both.
pub fn turned(
    s: &[u32],
    n: u8,
    count: u32,
    e: GroupElementId,
    a: GeneratorId,
    b: GeneratorId,
    times: u32,
) -> Result<GroupElementId, Refusal>
    ensures { result ≡ turned times s.now n count e.0 a.0 b.0 }
{
    let mut x = e;
    for _ in 0..times {
        let y = egg::inner::next(s, n, count, x, a)?;
        x = egg::inner::next(s, n, count, y, b)?;
    }
    Ok(x)
}

// Refuses 13 where one relation does not lead from e back to e, or 17 where a number read on the way is out of range.
pub fn relation_at(
    s: &[u32],
    n: u8,
    count: u32,
    e: GroupElementId,
    a: GeneratorId,
    b: GeneratorId,
    times: u32,
) -> Result<(), Refusal>
    ensures { result ≡ relation_at s.now n count e.0 a.0 b.0 times }
{
    let x = turned(&s[..], n, count, e, a, b, times)?;
    if x.0 == e.0 {
        Ok(())
    } else {
        Err(Refusal::RelationFails(e, a, b))
    }
}

// The relations of one element by which each generator doubled leads back.
fn doubled_row(s: &[u32], n: u8, count: u32, e: GroupElementId) -> Result<(), Refusal>
    ensures { result ≡ doubled_row s.now n count e.0 }
{
    for g in 0..n {
        relation_at(&s[..], n, count, e, GeneratorId(g), GeneratorId(g), 1)?;
    }
    Ok(())
}

// The relations of one element by which each pair, as often as its order says, leads back.
fn pairs_row(s: &[u32], n: u8, count: u32, orders: &[u32], e: GroupElementId) -> Result<(), Refusal>
    requires { length orders.now ≤ 28 }
    ensures { result ≡ pairs_row s.now n count orders.now e.0 }
{
    for k in 0..orders.len() {
        let pair = egg::inner::pair_code(k);
        relation_at(
            &s[..],
            n,
            count,
            e,
            GeneratorId((pair / 8 % 256) as u8),
            GeneratorId((pair % 8) as u8),
            orders[k],
        )?;
    }
    Ok(())
}

// Every relation at one element: each generator doubled, then each pair; the first refusal.
#[tactic(auto, using(egg::proofs::Refusing::handed_on))]
pub fn relations_row(
    s: &[u32],
    n: u8,
    count: u32,
    orders: &[u32],
    e: GroupElementId,
) -> Result<(), Refusal>
    requires { length orders.now ≤ 28 }
    ensures { result ≡ relations_row s.now n count orders.now e.0 }
{
    doubled_row(&s[..], n, count, e)?;
    pairs_row(&s[..], n, count, &orders[..], e)
}

// Every relation at every element, in order: the first refusal.
pub fn relations(s: &[u32], n: u8, count: u32, orders: &[u32]) -> Result<(), Refusal>
    requires { length orders.now ≤ 28 }
    ensures { result ≡ relations s.now n count orders.now }
{
    for e in 0..count {
        relations_row(&s[..], n, count, &orders[..], GroupElementId(e))?;
    }
    Ok(())
}
