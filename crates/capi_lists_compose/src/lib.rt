// The products of a factor's elements over lists as a C function: the call by which a whole page of delayed viewers catches up. It stands by itself, as
// `capi_factor_compose` does: in a module where nobody else composes the compiler puts the whole walk in line.
// `capi_lists_compose_c` exports them to C.
#![tactic(auto)]

ghost use Rattle.std.specs.Prelude.{◌≡◌, [], ◌∷◌};
ghost use Rattle.lists_factor.specs.Each.{compose_each};
ghost use Rattle.capi_values.specs.Bridge.{handle, telling};
ghost use Rattle.capi_lists.specs.Told.{told_of};

use capi_lists::inner::write_listed;
use capi_values::inner::factor_of;

// Writes to each place of out the product a * b of the elements there. Refuses in this order, and leaves out as it was then: 4 for a told shorter than
// 5, which stays as it was too; 4 for lists of different lengths or of more than 4,096 places; then the first place that hg_compose refuses, as it does.
pub fn hg_compose_each(
    table: &[u32],
    start: usize,
    room: u32,
    n: u8,
    count: u32,
    a: &[u32],
    b: &[u32],
    out: &mut [u32],
    told: &mut [u32],
) -> u32
    ensures { telling result told.new (out.new ∷ []) ≡ told_of told.old out.old (compose_each table.now (handle start room n count) a.now b.now out.old) }
{
    if told.len() < 5 {
        return 4;
    }
    let f = factor_of(start, room, n, count);
    let said = lists_factor::compose_each(table, f, a, b, out);
    write_listed(told, said)
}
