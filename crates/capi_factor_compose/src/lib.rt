// The product of two elements of a factor as a C function: the call that a delayed viewer's catch-up is made of. It stands by itself, since in a
// module where nobody else composes the compiler puts the whole walk in line.
// `capi_factor_compose_c` exports them to C.
#![tactic(auto)]

ghost use Rattle.std.specs.Prelude.{◌≡◌};
ghost use Rattle.factor.specs.Questions.{compose_answer};
ghost use Rattle.capi_values.specs.Bridge.{handle, reached_code};

use capi_values::inner::{factor_of, reached_code};
use egg::GroupElementId;

// Answers a * b. Refuses in this order: 17 for a handle that does not fit, 14 for an element out of range, 17 for a number read that is out of range.
pub fn hg_compose(table: &[u32], start: usize, room: u32, n: u8, count: u32, a: u32, b: u32) -> u64
    ensures { result ≡ reached_code (compose_answer table.now (handle start room n count) (record { 0 = a }) (record { 0 = b })) }
{
    let f = factor_of(start, room, n, count);
    reached_code(factor::compose(table, f, GroupElementId(a), GroupElementId(b)))
}
