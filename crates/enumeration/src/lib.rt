// From todd_coxeter.rs: a checked factor from pair orders.
#![tactic(auto)]

ghost use Rattle.std.specs.Prelude.{◌≡◌, ◌+◌, ◌*◌, ◌<◌, ◌≤◌, length};
ghost use Rattle.build_lending.specs.Lending.{Making};
ghost use Rattle.enumeration.specs.Calls.{enumerates};

use egg::{Factor, Refusal};

pub mod inner;

// 000's `construct_group`: makes a factor of the group that the pair orders present, in the stretch of `table` that
// starts at `start`, and answers its handle. The orders come in the order (0,1),(0,2),(1,2),(0,3).. . Refuses in this
// order: 1 for more than 8 generators, 2 for a list of the wrong length, 3 for the first order outside 2..32,767, 4 for
// a room that is 0 or above 65,535 or a table or work that is too short; then, leaving both stretches zero, 5 or 6 at
// the first place where no element can be added. A run that is done is tested by 8 to 13, which it always passes
// (`enumeration_done` of `promises_enumeration`).
pub fn enumerate(
    table: &mut [u32],
    start: usize,
    work: &mut [u32],
    orders: &[u32],
    n: u8,
    room: u32,
) -> Result<Factor, Refusal>
    ensures { Making.making result table.new work.new ≡ enumerates table.old start work.old orders.now n room }
{
    if 8 < n {
        return Err(Refusal::TooManyGenerators(n as u32));
    }
    factor_relations::inner::orders_right(orders, n)?;
    if !build_lending::inner::lent_right(table.len(), start, work.len(), room, n) {
        return Err(Refusal::TooShort);
    }
    let end = build_lending::inner::stretch_end(table.len(), start, room, n);
    let need = build_lending::inner::work_need(n, room);
    let count = inner::enumerate_in(&mut table[start..end], &mut work[..need], orders, n, room);
    build_lending::inner::made(start, room, n, count)
}
