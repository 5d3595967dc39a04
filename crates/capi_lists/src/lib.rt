// The questions over lists, of a factor and of a product, as C functions: one call for up to 4,096 places; `capi_lists_compose` has the products of a
// factor's elements. A handle is its four numbers, a product its list of handles. The results go to `out`, the verdict to `told`, which has five numbers:
// the refusal's number and its three places, 0 where nothing is refused, and the place of the lists that was refused, 0 where there is none.
// Where a product's lists have one place, products and inverses are answered from its list of handles, as by the single calls: no product is made.
// `capi_lists_c` exports them to C.
#![tactic(auto)]

ghost use Rattle.std.specs.Prelude.{◌≡◌, [], ◌∷◌};
ghost use Rattle.lists_factor.specs.Each as factor;
ghost use Rattle.lists_group.specs.Each as group;
ghost use Rattle.capi_values.specs.Bridge.{handle, telling};
ghost use Rattle.capi_handles.specs.Product.{product_of};
ghost use Rattle.capi_lists.specs.Told.{told_of};

use capi_handles::inner::product_of;
use capi_handles_compose::inner::compose;
use capi_handles_inverse::inner::inverse;
use capi_values::inner::factor_of;
use egg::GroupElementId;

pub mod inner;

// Writes to each place of out the inverse of the element of a there. Refuses as hg_compose_each does, the places as hg_inverse.
pub fn hg_inverse_each(
    table: &[u32],
    start: usize,
    room: u32,
    n: u8,
    count: u32,
    a: &[u32],
    out: &mut [u32],
    told: &mut [u32],
) -> u32
    ensures { telling result told.new (out.new ∷ []) ≡ told_of told.old out.old (factor.inverse_each table.now (handle start room n count) a.now out.old) }
{
    if told.len() < 5 {
        return 4;
    }
    let f = factor_of(start, room, n, count);
    let said = lists_factor::inverse_each(table, f, a, out);
    inner::write_listed(told, said)
}

// Writes to each place of out the power of the element of a there by the exponent there, the inverse's power where that is negative. Refuses as
// hg_compose_each does, the places as hg_product_powi of the factor alone.
pub fn hg_powi_each(
    table: &[u32],
    start: usize,
    room: u32,
    n: u8,
    count: u32,
    a: &[u32],
    exponents: &[i32],
    out: &mut [u32],
    told: &mut [u32],
) -> u32
    ensures { telling result told.new (out.new ∷ []) ≡ told_of told.old out.old (factor.powi_each table.now (handle start room n count) a.now exponents.now out.old) }
{
    if told.len() < 5 {
        return 4;
    }
    let f = factor_of(start, room, n, count);
    let said = lists_factor::powi_each(table, f, a, exponents, out);
    inner::write_listed(told, said)
}

// Writes to each place of out the product a * b of the elements there. Refuses as hg_compose_each does, the places as hg_product_compose.
pub fn hg_product_compose_each(
    table: &[u32],
    handles: &[u32],
    count: u8,
    a: &[u32],
    b: &[u32],
    out: &mut [u32],
    told: &mut [u32],
) -> u32
    ensures { telling result told.new (out.new ∷ []) ≡ told_of told.old out.old (group.compose_each table.now (product_of handles.now count) a.now b.now out.old) }
{
    if told.len() < 5 {
        return 4;
    }
    if lists::inner::one_place(a.len(), b.len(), out.len()) {
        let said = compose(
            table,
            handles,
            count,
            GroupElementId(a[0]),
            GroupElementId(b[0]),
        );
        let listed = lists::inner::hand_over_one(said, out);
        return inner::write_listed(told, listed);
    }
    let g = product_of(handles, count);
    let said = lists_group::compose_each(table, g, a, b, out);
    inner::write_listed(told, said)
}

// Writes to each place of out the inverse of the element of a there. Refuses as hg_compose_each does, the places as hg_product_inverse.
pub fn hg_product_inverse_each(
    table: &[u32],
    handles: &[u32],
    count: u8,
    a: &[u32],
    out: &mut [u32],
    told: &mut [u32],
) -> u32
    ensures { telling result told.new (out.new ∷ []) ≡ told_of told.old out.old (group.inverse_each table.now (product_of handles.now count) a.now out.old) }
{
    if told.len() < 5 {
        return 4;
    }
    if lists::inner::one_place(a.len(), a.len(), out.len()) {
        let said = inverse(table, handles, count, GroupElementId(a[0]));
        let listed = lists::inner::hand_over_one(said, out);
        return inner::write_listed(told, listed);
    }
    let g = product_of(handles, count);
    let said = lists_group::inverse_each(table, g, a, out);
    inner::write_listed(told, said)
}

// Writes to each place of out the power of the element of a there by the exponent there, the inverse's power where that is negative. Refuses as
// hg_compose_each does, the places as hg_product_powi.
pub fn hg_product_powi_each(
    table: &[u32],
    handles: &[u32],
    count: u8,
    a: &[u32],
    exponents: &[i32],
    out: &mut [u32],
    told: &mut [u32],
) -> u32
    ensures { telling result told.new (out.new ∷ []) ≡ told_of told.old out.old (group.powi_each table.now (product_of handles.now count) a.now exponents.now out.old) }
{
    if told.len() < 5 {
        return 4;
    }
    let g = product_of(handles, count);
    let said = lists_group::powi_each(table, g, a, exponents, out);
    inner::write_listed(told, said)
}
