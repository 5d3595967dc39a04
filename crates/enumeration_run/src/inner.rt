// The machine of the enumeration: one visit of a place, that is of an element and a generator, and the run over all of
// them.
ghost use Rattle.std.specs.Prelude.{◌≡◌, ◌+◌, ◌<◌, ◌≤◌, length};
ghost use Rattle.enumeration_rows.specs.Rows.{Orders};
ghost use Rattle.enumeration_run.specs.Run.{discovered, visit, visits, advanced, outcome, runs, enumerated};

use egg::{GeneratorId, GroupElementId, Refusal};

// Where a run stands: the place to visit next, by its element and generator, and how many elements there are so far.
#[derive(Clone, Copy)]
pub struct Run {
    pub element: u32,
    pub generator: u8,
    pub count: u32,
}

// How a run ended: with so many elements, at a place where its allowance was spent, or refused.
#[derive(Clone, Copy)]
pub enum Ran {
    Done(u32),
    Paused(Run),
    Refused(Refusal),
}

// Does what follows from a new element: sets its step back, which is no fact, adds its rows, and settles all that
// follows from the step to it.
fn discover(
    t: &mut [u32],
    w: &mut [u32],
    orders: &[u32],
    n: u8,
    e: GroupElementId,
    g: GeneratorId,
    new: GroupElementId,
)
    requires { Orders orders.now }
    ensures { (t.new ≡ (discovered n orders.now e g new t.old w.old).table)
        × (w.new ≡ (discovered n orders.now e g new t.old w.old).work) }
{
    build_reading::inner::set_successor(t, n, new, g, e);
    enumeration_rows::inner::add_rows(w, orders, n, new);
    let place = enumeration_rows::inner::place_at(n, e, g);
    egg::inner::put(w, place + 6, 0);
    enumeration_facts::inner::settle(t, w, n, ((place + 1) % 4294967296) as u32);
}

// One place of 000's inner loop: a known step is skipped, else there is a new element. Answers the element count after
// it, or 5 or 6.
fn visit_place(
    t: &mut [u32],
    w: &mut [u32],
    orders: &[u32],
    n: u8,
    room: u32,
    count: u32,
    e: GroupElementId,
    g: GeneratorId,
) -> Result<u32, Refusal>
    requires { Orders orders.now }
    ensures { visit result t.new w.new ≡ visits n orders.now room count e g t.old w.old }
{
    if egg::inner::get(&t[..], egg::inner::successor_at(n, e, g)) != 0 {
        return Ok(count);
    }
    let new = build_reading::inner::add_successor(t, n, room, count, e, g)?;
    discover(t, w, orders, n, e, g, new);
    Ok(count + 1)
}

// The place after this one: the next generator, or the next element's first.
pub fn advance(n: u8, at: Run, count: u32) -> Run
    requires { (at.generator < n) × (at.element < 4294967295) }
    ensures { result ≡ advanced n at count }
{
    if at.generator + 1 < n {
        Run {
            element: at.element,
            generator: at.generator + 1,
            count,
        }
    } else {
        Run {
            element: at.element + 1,
            generator: 0,
            count,
        }
    }
}

// Visits at most `allowance` places, in order.
fn go(
    t: &mut [u32],
    w: &mut [u32],
    orders: &[u32],
    n: u8,
    room: u32,
    from: Run,
    allowance: u64,
) -> Ran
    requires { Orders orders.now × (from.generator < n) }
    ensures { outcome result t.new w.new ≡ runs allowance n orders.now room from t.old w.old }
{
    let mut at = from;
    let mut left = allowance;
    // Counted by hand: a run mostly ends before its allowance is spent.
    while at.element < at.count {
        if left == 0 {
            return Ran::Paused(at);
        }
        let e = GroupElementId(at.element);
        let g = GeneratorId(at.generator);
        match visit_place(t, w, orders, n, room, at.count, e, g) {
            Err(why) => {
                return Ran::Refused(why);
            }
            Ok(count) => {
                at = advance(n, at, count);
            }
        }
        left -= 1;
    }
    Ran::Done(at.count)
}

// A whole run from cleared stretches. With no generators there is no place to visit.
pub fn enumerate(t: &mut [u32], w: &mut [u32], orders: &[u32], n: u8, room: u32) -> Ran
    requires { Orders orders.now }
    ensures { outcome result t.new w.new ≡ enumerated n orders.now room (length t.old) (length w.old) }
{
    egg::inner::clear(t);
    egg::inner::clear(w);
    enumeration_rows::inner::add_rows(w, orders, n, GroupElementId(0));
    if n == 0 {
        return Ran::Done(1);
    }
    go(
        t,
        w,
        orders,
        n,
        room,
        Run {
            element: 0,
            generator: 0,
            count: 1,
        },
        u64::MAX,
    )
}
