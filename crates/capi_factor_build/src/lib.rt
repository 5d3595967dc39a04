// The calls that make a whole factor at once, from composed rows or from pair orders, as C functions.
// `capi_factor_build_c` exports them to C.
#![tactic(auto)]

ghost use Rattle.std.specs.Prelude.{◌≡◌, [], ◌∷◌};
ghost use Rattle.factor.specs.Composed.{composed};
ghost use Rattle.enumeration.specs.Calls.{enumerates};
ghost use Rattle.capi_values.specs.Bridge.{telling, in_out, bridged};

use capi_values::inner::write_made;

// Builds a factor from composed rows, n numbers for each element. Refuses in this order: 4 for an out shorter than 5, 1 for more than 8 generators, 4
// for a room out of range or a short buffer, 7, 5 or 6 while it reads, then 8 to 12.
pub fn hg_composed(
    table: &mut [u32],
    start: usize,
    work: &mut [u32],
    rows: &[u32],
    n: u8,
    room: u32,
    out: &mut [u32],
) -> u32
    ensures { telling result out.new (table.new ∷ work.new ∷ []) ≡ in_out 5 out.old (table.old ∷ work.old ∷ []) (bridged (composed table.old start work.old rows.now n room) out.old) }
{
    if out.len() < 5 {
        return 4;
    }
    write_made(
        out,
        factor::from_composed(table, start, work, rows, n, room),
    )
}

// Builds the group that the pair orders present; they come in the order (0,1),(0,2),(1,2),(0,3).. Refuses in this order: 4 for an out
// shorter than 5, 1 for more than 8 generators, 2 for a list of the wrong length, 3 for the first order out of range, 4 for a room out of range or a
// short buffer, 5 or 6 while it runs. No other refusal comes.
pub fn hg_enumerate(
    table: &mut [u32],
    start: usize,
    work: &mut [u32],
    orders: &[u32],
    n: u8,
    room: u32,
    out: &mut [u32],
) -> u32
    ensures { telling result out.new (table.new ∷ work.new ∷ []) ≡ in_out 5 out.old (table.old ∷ work.old ∷ []) (bridged (enumerates table.old start work.old orders.now n room) out.old) }
{
    if out.len() < 5 {
        return 4;
    }
    write_made(
        out,
        enumeration::enumerate(table, start, work, orders, n, room),
    )
}
