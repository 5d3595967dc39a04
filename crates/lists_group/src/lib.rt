// Order 2: questions about a product's elements, over lists of them.
#![tactic(auto)]

ghost use Rattle.std.specs.Prelude.{◌≡◌};
ghost use Rattle.lists.specs.Lists.{Answered};
ghost use Rattle.lists_group.specs.Each.{compose_each, inverse_each, powi_each};

use egg::GroupElementId;
use group_handles::Group;
use lists::ListRefusal;

pub mod inner;

// At each place the product of the two elements there. One place is the single call, and needs no list of our own; few have a
// short one, which is soon zeroed, and more than few are asked a piece at a time.
pub fn compose_each(
    table: &[u32],
    g: Group,
    a: &[u32],
    b: &[u32],
    out: &mut [u32],
) -> Result<(), ListRefusal>
    ensures { Answered.answered result out.new ≡ compose_each table.now g a.now b.now out.old }
{
    if !lists::inner::lengths_right(a.len(), b.len(), out.len()) {
        return lists::inner::lists_refused();
    }
    if a.len() == 1 {
        let said = group::compose(&table[..], g, GroupElementId(a[0]), GroupElementId(b[0]));
        return lists::inner::hand_over_one(said, out);
    }
    if a.len() <= 64 {
        let mut few = [0; 64];
        return inner::compose_by(&table[..], g, &a[..], &b[..], &mut few, out);
    }
    inner::compose_from(&table[..], g, &a[..], &b[..], 0, out)
}

// At each place the inverse of the element there.
pub fn inverse_each(table: &[u32], g: Group, a: &[u32], out: &mut [u32]) -> Result<(), ListRefusal>
    ensures { Answered.answered result out.new ≡ inverse_each table.now g a.now out.old }
{
    if !lists::inner::lengths_right(a.len(), a.len(), out.len()) {
        return lists::inner::lists_refused();
    }
    if a.len() == 1 {
        let said = group::inverse(&table[..], g, GroupElementId(a[0]));
        return lists::inner::hand_over_one(said, out);
    }
    if a.len() <= 64 {
        let mut few = [0; 64];
        return inner::inverse_by(&table[..], g, &a[..], &mut few, out);
    }
    inner::inverse_from(&table[..], g, &a[..], 0, out)
}

// At each place the power of the element there by the exponent there. Powers take so long that a long list of our own costs nothing
// beside them, and it takes less of the stack than pieces.
pub fn powi_each(
    table: &[u32],
    g: Group,
    a: &[u32],
    exponents: &[i32],
    out: &mut [u32],
) -> Result<(), ListRefusal>
    ensures { Answered.answered result out.new ≡ powi_each table.now g a.now exponents.now out.old }
{
    if !lists::inner::lengths_right(a.len(), exponents.len(), out.len()) {
        return lists::inner::lists_refused();
    }
    if a.len() == 1 {
        let k = lists::inner::exponent(exponents, 0);
        let said = group::powi(&table[..], g, GroupElementId(a[0]), k);
        return lists::inner::hand_over_one(said, out);
    }
    if a.len() <= 64 {
        let mut few = [0; 64];
        return inner::powi_by(&table[..], g, &a[..], &exponents[..], &mut few, out);
    }
    let mut many = [0; 4096];
    inner::powi_by(&table[..], g, &a[..], &exponents[..], &mut many, out)
}
