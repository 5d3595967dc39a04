// The quick run, by closed loops: one visit of a place, by what `enumeration_quick_loops` says of its step, and the run
// over all places.
ghost use Rattle.std.specs.Prelude.{◌≡◌, ◌<◌, length};
ghost use Rattle.enumeration_rows.specs.Rows.{Orders};
ghost use Rattle.enumeration_quick_run.specs.Sweeps.{swept, settles, sweeps, sweep, sweep_from, swiftly};

use egg::{GeneratorId, GroupElementId, Refusal};
use enumeration_run::inner::{Ran, Run};

// Settles a step that is not known: it leads where the loops say (`found`, the number + 1), or to a new element where
// they say nothing. Answers the element count after it, or 5 or 6.
fn settle_step(
    t: &mut [u32],
    n: u8,
    room: u32,
    count: u32,
    e: GroupElementId,
    g: GeneratorId,
    found: u32,
) -> Result<u32, Refusal>
    ensures { swept result t.new ≡ settles n room count e g found t.old }
{
    if found != 0 {
        let to = GroupElementId(found - 1);
        build_reading::inner::set_successor(t, n, e, g, to);
        build_reading::inner::set_successor(t, n, to, g, e);
        return Ok(count);
    }
    let new = build_reading::inner::add_successor(t, n, room, count, e, g)?;
    build_reading::inner::set_successor(t, n, new, g, e);
    Ok(count + 1)
}

// One place: a known step is skipped, else it is settled.
fn sweep_place(
    t: &mut [u32],
    orders: &[u32],
    n: u8,
    room: u32,
    count: u32,
    e: GroupElementId,
    g: GeneratorId,
) -> Result<u32, Refusal>
    requires { Orders orders.now × (e.0 < 4294967295) }
    ensures { swept result t.new ≡ sweeps n orders.now room count e g t.old }
{
    if egg::inner::get(&t[..], egg::inner::successor_at(n, e, g)) != 0 {
        return Ok(count);
    }
    let found = enumeration_quick_loops::inner::loop_from(&t[..], &orders[..], n, e, g);
    settle_step(t, n, room, count, e, g, found)
}

// Visits at most `allowance` places, in order.
fn sweep(t: &mut [u32], orders: &[u32], n: u8, room: u32, from: Run, allowance: u64) -> Ran
    requires { Orders orders.now × (from.generator < n) }
    ensures { sweep result t.new ≡ sweep_from allowance n orders.now room from t.old }
{
    let mut at = from;
    let mut left = allowance;
    // Counted by hand: a run mostly ends before its allowance is spent.
    while at.element < at.count {
        if left == 0 {
            return Ran::Paused(at);
        }
        let e = GroupElementId(at.element);
        let g = GeneratorId(at.generator);
        match sweep_place(t, &orders[..], n, room, at.count, e, g) {
            Err(why) => {
                return Ran::Refused(why);
            }
            Ok(count) => {
                at = enumeration_run::inner::advance(n, at, count);
            }
        }
        left -= 1;
    }
    Ran::Done(at.count)
}

// A whole run from a cleared stretch. With no generators there is no place to visit.
pub fn swiftly(t: &mut [u32], orders: &[u32], n: u8, room: u32) -> Ran
    requires { Orders orders.now }
    ensures { sweep result t.new ≡ swiftly n orders.now room (length t.old) }
{
    egg::inner::clear(t);
    if n == 0 {
        return Ran::Done(1);
    }
    let from = Run {
        element: 0,
        generator: 0,
        count: 1,
    };
    sweep(t, orders, n, room, from, u64::MAX)
}
