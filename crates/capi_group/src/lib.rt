// The questions about products as C functions; `capi_group_build` makes products. A product is its handles, five numbers each, in a lent list, and
// their count: a list that is too short is 17, a count above 8 is 15, both given by the call itself. An answer is one number as in `capi_values`.
// `capi_group_c` exports them to C.
#![tactic(auto)]

ghost use Rattle.std.specs.Prelude.{◌≡◌};
ghost use Rattle.capi_values.specs.Bridge.{reached_code, counted_code};
ghost use Rattle.group.specs.Questions.{count_answer, generators_answer, generator_answer, step_answer, project_answer, inject_answer, compose_answer, inverse_answer, conjugate_answer, powi_answer, period_answer};
ghost use Rattle.capi_handles.specs.Product.{product_of};

use capi_handles_compose::inner::{compose, conjugate};
use egg::{GeneratorId, GroupElementId};

// Answers how many elements the product has. Refuses in this order: 17 for a handle that does not fit, 15 for a product too large (more than 8
// factors or 4,294,967,295 elements).
pub fn hg_product_count(table: &[u32], handles: &[u32], count: u8) -> u64
    ensures { result ≡ counted_code (count_answer table.now (product_of handles.now count)) }
{
    let g = capi_handles::inner::product_of(handles, count);
    capi_values::inner::counted_code(group::element_count(table, g))
}

// Answers how many generators the factors have together. Refuses as hg_product_count does.
pub fn hg_product_generators(table: &[u32], handles: &[u32], count: u8) -> u64
    ensures { result ≡ counted_code (generators_answer table.now (product_of handles.now count)) }
{
    let g = capi_handles::inner::product_of(handles, count);
    capi_values::inner::counted_code(group::generator_count(table, g))
}

// Answers the element that the generator x is. Refuses in this order: 17 for a handle that does not fit, 14 for a generator out of range, 15 for a
// product too large, 17 for a number read that is out of range.
pub fn hg_product_generator(table: &[u32], handles: &[u32], count: u8, x: u8) -> u64
    ensures { result ≡ reached_code (generator_answer table.now (product_of handles.now count) (record { 0 = x })) }
{
    capi_values::inner::reached_code(capi_handles_step::inner::generator(
        table,
        handles,
        count,
        GeneratorId(x),
    ))
}

// Answers the step from e by the generator x. Refuses in this order: 17 for a handle that does not fit, 14 for an element or a generator out of
// range, 15 for a product too large, 17 for a number read that is out of range.
pub fn hg_product_step(table: &[u32], handles: &[u32], count: u8, e: u32, x: u8) -> u64
    ensures { result ≡ reached_code (step_answer table.now (product_of handles.now count) (record { 0 = e }) (record { 0 = x })) }
{
    capi_values::inner::reached_code(capi_handles_step::inner::step(
        table,
        handles,
        count,
        GroupElementId(e),
        GeneratorId(x),
    ))
}

// Answers the element that e has in the factor f. Refuses in this order: 17 for a handle that does not fit, 14 for a factor or an element out of
// range, 15 for a product too large.
pub fn hg_product_project(table: &[u32], handles: &[u32], count: u8, f: u8, e: u32) -> u64
    ensures { result ≡ reached_code (project_answer table.now (product_of handles.now count) f (record { 0 = e })) }
{
    let g = capi_handles::inner::product_of(handles, count);
    capi_values::inner::reached_code(group::project(table, g, f, GroupElementId(e)))
}

// Answers the element that is e in the factor f, and the identity in the others. Refuses as hg_product_project does.
pub fn hg_product_inject(table: &[u32], handles: &[u32], count: u8, f: u8, e: u32) -> u64
    ensures { result ≡ reached_code (inject_answer table.now (product_of handles.now count) f (record { 0 = e })) }
{
    let g = capi_handles::inner::product_of(handles, count);
    capi_values::inner::reached_code(group::inject(table, g, f, GroupElementId(e)))
}

// Answers a * b. Refuses in this order: 17 for a handle that does not fit, 14 for an element out of range, 15 for a product too large, 17 for a
// number read that is out of range.
pub fn hg_product_compose(table: &[u32], handles: &[u32], count: u8, a: u32, b: u32) -> u64
    ensures { result ≡ reached_code (compose_answer table.now (product_of handles.now count) (record { 0 = a }) (record { 0 = b })) }
{
    let r = compose(table, handles, count, GroupElementId(a), GroupElementId(b));
    capi_values::inner::reached_code(r)
}

// Answers the inverse of a. Refuses as hg_product_compose does.
pub fn hg_product_inverse(table: &[u32], handles: &[u32], count: u8, a: u32) -> u64
    ensures { result ≡ reached_code (inverse_answer table.now (product_of handles.now count) (record { 0 = a })) }
{
    capi_values::inner::reached_code(capi_handles_inverse::inner::inverse(
        table,
        handles,
        count,
        GroupElementId(a),
    ))
}

// Answers a * b * a^-1. Refuses as hg_product_compose does.
pub fn hg_product_conjugate(table: &[u32], handles: &[u32], count: u8, a: u32, b: u32) -> u64
    ensures { result ≡ reached_code (conjugate_answer table.now (product_of handles.now count) (record { 0 = a }) (record { 0 = b })) }
{
    let r = conjugate(table, handles, count, GroupElementId(a), GroupElementId(b));
    capi_values::inner::reached_code(r)
}

// Answers the i-th power of a, the inverse's power where i is negative. Refuses as hg_product_compose does.
pub fn hg_product_powi(table: &[u32], handles: &[u32], count: u8, a: u32, i: i32) -> u64
    ensures { result ≡ reached_code (powi_answer table.now (product_of handles.now count) (record { 0 = a }) i) }
{
    let g = capi_handles::inner::product_of(handles, count);
    capi_values::inner::reached_code(group::powi(table, g, GroupElementId(a), i))
}

// Answers the period of a, which is 1 for the identity. Refuses as hg_product_compose does, and with 17 where a walk through the powers finds no
// identity.
pub fn hg_product_period(table: &[u32], handles: &[u32], count: u8, a: u32) -> u64
    ensures { result ≡ counted_code (period_answer table.now (product_of handles.now count) (record { 0 = a })) }
{
    let g = capi_handles::inner::product_of(handles, count);
    capi_values::inner::counted_code(group::period(table, g, GroupElementId(a)))
}
