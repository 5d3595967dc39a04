// Order 2: questions about a factor's elements, over lists of them.
#![tactic(auto)]

ghost use Rattle.std.specs.Prelude.{◌≡◌};
ghost use Rattle.lists.specs.Lists.{Answered};
ghost use Rattle.lists_factor.specs.Each.{compose_each, inverse_each, powi_each};

use egg::{Factor, GroupElementId};
use lists::ListRefusal;

pub mod inner;

// At each place the product of the two elements there. One place needs no list of our own, and few a short one.
pub fn compose_each(
    table: &[u32],
    f: Factor,
    a: &[u32],
    b: &[u32],
    out: &mut [u32],
) -> Result<(), ListRefusal>
    ensures { Answered.answered result out.new ≡ compose_each table.now f a.now b.now out.old }
{
    if !lists::inner::lengths_right(a.len(), b.len(), out.len()) {
        return lists::inner::lists_refused();
    }
    if a.len() == 1 {
        return inner::compose_one(&table[..], f, &a[..], &b[..], out);
    }
    if inner::few(f.elements, a.len()) {
        return inner::compose_few(&table[..], f, &a[..], &b[..], out);
    }
    inner::compose_several(&table[..], f, &a[..], &b[..], out)
}

// At each place the inverse of the element there.
pub fn inverse_each(table: &[u32], f: Factor, a: &[u32], out: &mut [u32]) -> Result<(), ListRefusal>
    ensures { Answered.answered result out.new ≡ inverse_each table.now f a.now out.old }
{
    if !lists::inner::lengths_right(a.len(), a.len(), out.len()) {
        return lists::inner::lists_refused();
    }
    if a.len() == 1 {
        return inner::inverse_one(&table[..], f, &a[..], out);
    }
    if a.len() <= 64 {
        let mut few = [0; 64];
        return inner::inverse_by(&table[..], f, &a[..], &mut few, out);
    }
    inner::inverse_from(&table[..], f, &a[..], 0, out)
}

// At each place the power of the element there by the exponent there. Powers take so long that a long list of our own costs nothing
// beside them, and it takes less of the stack than pieces.
pub fn powi_each(
    table: &[u32],
    f: Factor,
    a: &[u32],
    exponents: &[i32],
    out: &mut [u32],
) -> Result<(), ListRefusal>
    ensures { Answered.answered result out.new ≡ powi_each table.now f a.now exponents.now out.old }
{
    if !lists::inner::lengths_right(a.len(), exponents.len(), out.len()) {
        return lists::inner::lists_refused();
    }
    if a.len() == 1 {
        let k = lists::inner::exponent(exponents, 0);
        let said = group_powers::inner::one::powi(&table[..], f, GroupElementId(a[0]), k);
        return lists::inner::hand_over_one(said, out);
    }
    if a.len() <= 64 {
        let mut few = [0; 64];
        return inner::powi_by(&table[..], f, &a[..], &exponents[..], &mut few, out);
    }
    let mut many = [0; 4096];
    inner::powi_by(&table[..], f, &a[..], &exponents[..], &mut many, out)
}
