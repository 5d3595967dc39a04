// What closed loops say of a step. A pair relation of which all steps but one are known is a closed loop: it says where
// that one leads. Here is what one relation says, and the first relation that says anything.
ghost use Rattle.std.specs.Prelude.{◌≡◌, ◌*◌, ◌-◌, ◌<◌};
ghost use Rattle.egg.specs.Table.{length_of};
ghost use Rattle.enumeration_rows.specs.Rows.{Orders};
ghost use Rattle.enumeration_fill.specs.Walk.{walk_from};
ghost use Rattle.enumeration_quick_loops.specs.Loops.{order_for, loop_by, loop_from};

use egg::{GeneratorId, GroupElementId};
use enumeration_fill::inner::Walked;

// The order of the pair of two generators, whichever of them is less.
fn order_for(orders: &[u32], g: GeneratorId, h: GeneratorId) -> u32
    ensures { result ≡ order_for orders.now g.0 h.0 }
{
    if g.0 < h.0 {
        egg::inner::get(
            orders,
            (egg::inner::pair_count(h.0) as usize) + (g.0 as usize),
        )
    } else {
        egg::inner::get(
            orders,
            (egg::inner::pair_count(g.0) as usize) + (h.0 as usize),
        )
    }
}

// How many letters a relation of that order has, without the one that is asked for.
fn letters(order: u32) -> u32
    requires { order < 32768 }
    ensures { result ≡ 2 * order - 1 }
{
    (2 * order).saturating_sub(1)
}

// A walk along two columns of the table's rows in turn. Most have a few steps, so that nothing is guessed as in
// `enumeration_fill`.
fn loop_end(
    t: &[u32],
    n: u8,
    element: GroupElementId,
    here: usize,
    there: usize,
    steps: u32,
) -> Walked
    requires { (here < 4294967296) × ((there < 4294967296) × (element.0 < 4294967295)) }
    ensures { (result ≡ walk_from steps t.now n element.0 here there) × (result.element.0 < 4294967295) }
{
    let mut e = element.0;
    let mut left = steps;
    // Counted by hand: a turn is two steps, and may end after one.
    while left != 0 {
        let x = egg::inner::get(t, egg::inner::start(n, GroupElementId(e)) + here);
        if x == 0 {
            return Walked {
                element: GroupElementId(e),
                left,
            };
        }
        left -= 1;
        if left == 0 {
            return Walked {
                element: GroupElementId(x - 1),
                left,
            };
        }
        let y = egg::inner::get(t, egg::inner::start(n, GroupElementId(x - 1)) + there);
        if y == 0 {
            return Walked {
                element: GroupElementId(x - 1),
                left,
            };
        }
        left -= 1;
        e = y - 1;
    }
    Walked {
        element: GroupElementId(e),
        left,
    }
}

// Where the relation of g and h says that e·g leads, as the number + 1; 0 where it says nothing. `length` is the length
// of e's word.
fn loop_by(
    t: &[u32],
    orders: &[u32],
    n: u8,
    e: GroupElementId,
    g: GeneratorId,
    h: GeneratorId,
    length: u32,
) -> u32
    requires { Orders orders.now × ((e.0 < 4294967295) × (length ≡ length_of t.now n e.0)) }
    ensures { result ≡ loop_by t.now orders.now n e.0 g.0 h.0 }
{
    if h.0 == g.0 {
        return 0;
    }
    let order = order_for(&orders[..], g, h);
    if (length as usize) + 1 < (order as usize) {
        return 0;
    }
    let end = loop_end(&t[..], n, e, h.0 as usize, g.0 as usize, letters(order));
    if end.left != 0 {
        return 0;
    }
    if egg::inner::get(t, egg::inner::start(n, end.element) + (g.0 as usize)) != 0 {
        return 0;
    }
    end.element.0 + 1
}

// Where the relations of g say that e·g leads, by the first that says it; 0 where none does.
pub fn loop_from(t: &[u32], orders: &[u32], n: u8, e: GroupElementId, g: GeneratorId) -> u32
    requires { Orders orders.now × (e.0 < 4294967295) }
    ensures { result ≡ loop_from n t.now orders.now n e.0 g.0 0 }
{
    let length = egg::inner::word_length(&t[..], n, e);
    for h in 0..n {
        let found = loop_by(&t[..], &orders[..], n, e, g, GeneratorId(h), length);
        if found != 0 {
            return found;
        }
    }
    0
}
