// The walks in a factor and in a product as C functions: the turns one after another in one call. A handle is its four numbers, a product its list of
// handles, and a word its generators, a byte each. The answer is one number: the element reached, or a refusal's number times 2^32 and its first place.
// `capi_walks_c` exports them to C.
#![tactic(auto)]

ghost use Rattle.std.specs.Prelude.{◌≡◌};
ghost use Rattle.factor.specs.Questions as factor;
ghost use Rattle.group.specs.Questions as group;
ghost use Rattle.capi_values.specs.Bridge.{handle, reached_code};
ghost use Rattle.capi_handles.specs.Product.{product_of};

use capi_values::inner::{factor_of, reached_code};
use egg::GroupElementId;

// Answers the element to which the generators of the word lead from the element `from`, one after another; an empty word leads to `from` itself.
// Refuses in this order: 17 for a handle that does not fit, 14 for `from` (place 0) or the first generator (the one at i has place i + 1) out of range,
// 17 for a number read that is out of range.
pub fn hg_walk(
    table: &[u32],
    start: usize,
    room: u32,
    n: u8,
    count: u32,
    from: u32,
    word: &[u8],
) -> u64
    ensures { result ≡ reached_code (factor.walk_answer table.now (handle start room n count) (record { 0 = from }) word.now) }
{
    let f = factor_of(start, room, n, count);
    reached_code(factor::walk(table, f, GroupElementId(from), word))
}

// The same in a product. Refuses in this order: 17 for a handle that does not fit, 14 for `from` (place 0) or the first generator (the one at i has
// place i + 1) out of range, 15 for a product too large, 17 for a number read that is out of range.
pub fn hg_product_walk(table: &[u32], handles: &[u32], count: u8, from: u32, word: &[u8]) -> u64
    ensures { result ≡ reached_code (group.walk_answer table.now (product_of handles.now count) (record { 0 = from }) word.now) }
{
    let g = capi_handles::inner::product_of(handles, count);
    reached_code(group::walk(table, g, GroupElementId(from), word))
}
