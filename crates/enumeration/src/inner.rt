// A build from pair orders in its stretches: the quick way, else the run of 000; and after either the checks and the
// relations.
ghost use Rattle.std.specs.Prelude.{◌≡◌, ◌≤◌, length};
ghost use Rattle.enumeration_run.specs.Limits.{Limits};
ghost use Rattle.enumeration.specs.Calls.{ran_count, Relating, relates, enumerated_in};
ghost use Rattle.enumeration.specs.Quick.{Quick};
ghost use Rattle.build_lending.specs.Finish.{Built};

use egg::{GroupElementId, Refusal};
use enumeration_run::inner::Ran;

// How a run ended, as a count or a refusal. With the largest allowance no run is paused.
fn counted(r: Ran) -> Result<u32, Refusal>
    ensures { result ≡ ran_count r }
{
    match r {
        Ran::Done(count) => Ok(count),
        Ran::Paused(at) => Ok(at.count),
        Ran::Refused(why) => Err(why),
    }
}

// Refusal 13, tested at the identity: for a table that has passed 8 to 12 that is as good as at every element. A
// failure zeroes the table.
fn relate(t: &mut [u32], orders: &[u32], n: u8, read: Result<u32, Refusal>) -> Result<u32, Refusal>
    requires { length orders.now ≤ 28 }
    ensures { Relating.relating result t.new ≡ relates n orders.now read t.old }
{
    let count = read?;
    let held = factor_relations::inner::relations_row(&t[..], n, count, orders, GroupElementId(0));
    if let Err(why) = held {
        egg::inner::clear(t);
        return Err(why);
    }
    Ok(count)
}

// The quick way: the run by closed loops, 8 to 12, then 13. Answers the element count where it accepts, and that is
// what the build by 000 gives (`enumeration_quick_laws`). That the build by 000 is refused by 5 or 6 where the quick way
// accepts nothing is proved (`promises_enumeration`), and the code does not rest on it.
fn enumerate_swiftly(t: &mut [u32], w: &mut [u32], orders: &[u32], n: u8, room: u32) -> Option<u32>
    requires { Limits n orders.now room (length t.old) (length w.old) }
    ensures { Quick (length t.old) (length w.old) orders.now n room result t.new w.new }
{
    let run = enumeration_quick_run::inner::swiftly(t, orders, n, room);
    let Ran::Done(count) = run else {
        return None;
    };
    let read = build_lending::inner::finish(t, w, n, Ok(count));
    relate(t, orders, n, read).ok()
}

// The whole build in its stretches: what the quick way accepts, else the run of 000, 8 to 12, then 13.
pub fn enumerate_in(
    t: &mut [u32],
    w: &mut [u32],
    orders: &[u32],
    n: u8,
    room: u32,
) -> Result<u32, Refusal>
    requires { Limits n orders.now room (length t.old) (length w.old) }
    ensures { Built.built result t.new w.new ≡ enumerated_in (length t.old) (length w.old) orders.now n room }
{
    if let Some(elements) = enumerate_swiftly(t, w, orders, n, room) {
        return Ok(elements);
    }
    let run = enumeration_run::inner::enumerate(t, w, orders, n, room);
    let count = build_lending::inner::finish(t, w, n, counted(run));
    relate(t, orders, n, count)
}
