// Composes and conjugates two elements of a product digit by digit. The handles are read from the list as they are wanted: no product is made for it.
// In H3 by H3 a product takes 572 instructions and a conjugate 1,030, by `group` and a product made of the list 742 and 1,132.
ghost use Rattle.std.specs.Prelude.{◌≡◌, true, ◌≤◌, length};
ghost use Rattle.group_handles.specs.Handles.{handles, elements_of, all_fit};
ghost use Rattle.group_digits.specs.Digits.{PartQuestion, digit_of, digitwise};
ghost use Rattle.group.specs.Questions.{two_elements, compose_answer, conjugate_answer};
ghost use Rattle.capi_handles.specs.Product.{product_of};

use capi_handles::inner::{handle_at, listed, look_at};
use egg::{GroupElementId, Refusal};
use group_handles::inner::{Limit, admit_seen};

// Refuses as `group_handles::inner::admit` does for two elements of the product.
fn admit(table: &[u32], l: &[u32], count: u8, a: u32, b: u32) -> Result<(), Refusal>
    ensures { result ≡ two_elements (length table.now) (product_of l.now count) a b }
{
    let s = look_at(table, l, 0, count);
    admit_seen(s, count, a, Limit::Elements, b, Limit::Elements)
}

// Does what `group_digits::inner::compose_digits` does for the product.
fn compose_listed(
    table: &[u32],
    l: &[u32],
    count: u8,
    a: GroupElementId,
    b: GroupElementId,
) -> Result<GroupElementId, Refusal>
    requires { (all_fit (length table.now) (handles (product_of l.now count)) ≡ true) × (elements_of (handles (product_of l.now count)) ≤ 4294967295) }
    ensures { result ≡ digitwise (digit_of PartQuestion.Compose table.now) (handles (product_of l.now count)) a.0 b.0 }
{
    let c = listed(count);
    let mut stride: u32 = 1;
    let mut sum: u32 = 0;
    let mut x = a.0;
    let mut y = b.0;
    for f in 0..c {
        let h = handle_at(l, f * 5);
        let n = h.elements;
        let s = egg::inner::part(table, h);
        let d = factor_compose::inner::compose_elements(
            s,
            h.generators,
            n,
            GroupElementId(x % n),
            GroupElementId(y % n),
        )?;
        sum += stride * d.0;
        stride *= n;
        x /= n;
        y /= n;
    }
    Ok(GroupElementId(sum))
}

// Answers a·b: as `group::compose` of the product.
pub fn compose(
    table: &[u32],
    l: &[u32],
    count: u8,
    a: GroupElementId,
    b: GroupElementId,
) -> Result<GroupElementId, Refusal>
    ensures { result ≡ compose_answer table.now (product_of l.now count) a b }
{
    if count == 1 {
        return factor::compose(table, handle_at(l, 0), a, b);
    }
    admit(table, l, count, a.0, b.0)?;
    compose_listed(table, l, count, a, b)
}

// Does what `group_digits::inner::conjugate_digits` does for the product.
fn conjugate_listed(
    table: &[u32],
    l: &[u32],
    count: u8,
    a: GroupElementId,
    b: GroupElementId,
) -> Result<GroupElementId, Refusal>
    requires { (all_fit (length table.now) (handles (product_of l.now count)) ≡ true) × (elements_of (handles (product_of l.now count)) ≤ 4294967295) }
    ensures { result ≡ digitwise (digit_of PartQuestion.Conjugate table.now) (handles (product_of l.now count)) a.0 b.0 }
{
    let c = listed(count);
    let mut stride: u32 = 1;
    let mut sum: u32 = 0;
    let mut outer = a.0;
    let mut middle = b.0;
    for f in 0..c {
        let h = handle_at(l, f * 5);
        let n = h.elements;
        let s = egg::inner::part(table, h);
        let d = factor_compose::inner::conjugate_elements(
            s,
            h.generators,
            n,
            GroupElementId(outer % n),
            GroupElementId(middle % n),
        )?;
        sum += stride * d.0;
        stride *= n;
        outer /= n;
        middle /= n;
    }
    Ok(GroupElementId(sum))
}

// Answers a·b·a⁻¹: as `group::conjugate` of the product.
pub fn conjugate(
    table: &[u32],
    l: &[u32],
    count: u8,
    a: GroupElementId,
    b: GroupElementId,
) -> Result<GroupElementId, Refusal>
    ensures { result ≡ conjugate_answer table.now (product_of l.now count) a b }
{
    if count == 1 {
        return factor::conjugate(table, handle_at(l, 0), a, b);
    }
    admit(table, l, count, a.0, b.0)?;
    conjugate_listed(table, l, count, a, b)
}
