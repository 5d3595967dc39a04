// What the waking of a copy of a row comes to, and how the copies behind it in its list that stand as it stood are
// moved on with it. (The head of enumeration_rows' inner.rt says what rows, copies, places and facts are.)
ghost use Rattle.std.specs.Prelude.{◌≡◌, ◌<◌, ◌≤◌, true};
ghost use Rattle.egg.specs.Table.{still_left};
ghost use Rattle.enumeration_fill.specs.Fill.{filled};
ghost use Rattle.enumeration_fill.specs.Alike.{Moves};
ghost use Rattle.enumeration_wake.specs.Waking.{state, learns, woken, wakes_all};
ghost use Rattle.enumeration_wake.specs.Carrying.{wakes_rest};

use egg::{GeneratorId, GroupElementId};
use enumeration_rows::inner::{RelationTableRow, SideOfGap};

// Sets one step; where it is new, its place goes on the stack of facts. Answers the link of the stack's top.
pub fn learn(
    t: &mut [u32],
    w: &mut [u32],
    n: u8,
    e: GroupElementId,
    g: GeneratorId,
    r: GroupElementId,
    top: u32,
) -> u32
    ensures { state t.new w.new result ≡ learns n e g r (state t.old w.old top) }
{
    if build_reading::inner::set_successor(t, n, e, g, r) {
        let at = enumeration_rows::inner::place_at(n, e, g);
        egg::inner::put(w, at + 6, top as usize);
        ((at + 1) % 4294967296) as u32
    } else {
        top
    }
}

// 000's `match row.fill(g)`: where the ends of a filled row have met, sets the step that it gives, both ways; else the
// copy waits again. Answers the link of the stack's top.
pub fn wake(
    t: &mut [u32],
    w: &mut [u32],
    n: u8,
    at: usize,
    side: SideOfGap,
    row: RelationTableRow,
    top: u32,
) -> u32
    requires { at < 36028797018963968 }
    ensures { state t.new w.new result ≡ woken n at side row (state t.old w.old top) }
{
    if row.left == row.right {
        let g = enumeration_rows::inner::generator(row.pair, row.left);
        let below = learn(t, w, n, row.from, g, row.to, top);
        learn(t, w, n, row.to, g, row.from, below)
    } else {
        enumeration_rows::inner::wait(w, n, at, row, side);
        top
    }
}

// How far the waking of a list has come: the link of the copy that is due, how many copies are left, by how many
// numbers the last link led on, and whether more of them may stand alike.
#[derive(Clone, Copy)]
pub struct Carried {
    pub at: u32,
    pub left: u32,
    pub step: u32,
    pub more: bool,
}

// Moves on the copies that stand as `before` stood, which was filled to `after`, as long as each link leads `step`
// numbers on. That guess costs a test, and lets a processor read on before the copy that it waits for has come.
pub fn carry_leg(
    t: &[u32],
    w: &mut [u32],
    n: u8,
    first: u32,
    count: u32,
    side: SideOfGap,
    before: RelationTableRow,
    after: RelationTableRow,
    step: u32,
    top: u32,
) -> Carried
    requires { Moves t.now n before after }
    ensures { (wakes_rest result n side (state t.now w.new top) ≡ wakes_all count n first side (state t.now w.old top)) × ((result.left ≤ count) × (still_left result.more result.left ≤ count)) }
{
    let list = enumeration_rows::inner::list_at(n, after, side);
    let forth = after.left - before.left;
    let back = before.right - after.right;
    let mut at = first;
    let mut left = count;
    // Counted by hand: each exit hands on how many are left.
    while left != 0 {
        let guess = at.wrapping_add(step);
        if at == 0 {
            return Carried {
                at,
                left,
                step,
                more: false,
            };
        }
        let place = (at - 1) as usize;
        let row = enumeration_rows::inner::read_row(&w[..], place);
        if !enumeration_fill::inner::alike(row, before, forth + back) {
            return Carried {
                at,
                left,
                step,
                more: false,
            };
        }
        let next = egg::inner::get(&w[..], place + 5);
        let moved = RelationTableRow {
            pair: row.pair,
            left: row.left + forth,
            right: row.right - back,
            ..after
        };
        enumeration_rows::inner::write_row(w, place, moved);
        enumeration_rows::inner::append(w, list, place);
        left -= 1;
        if next != guess {
            return Carried {
                at: next,
                left,
                step: next.wrapping_sub(at),
                more: true,
            };
        }
        at = guess;
    }
    Carried {
        at,
        left,
        step,
        more: false,
    }
}

// Answers whether it is worth while to look for copies that stand as this row did: it waits again, and only long lists
// have many.
pub fn worth_carrying(count: u32, after: RelationTableRow) -> bool
    ensures { result ≡ true → after.left < after.right }
{
    16 < count && after.left < after.right
}

// Moves on the copies at the start of what is left of a list that stand as `before` stood, which was filled to `after`:
// in parts, in each of which the copies are equally far apart.
pub fn carry(
    t: &[u32],
    w: &mut [u32],
    n: u8,
    first: u32,
    count: u32,
    side: SideOfGap,
    before: RelationTableRow,
    after: RelationTableRow,
    top: u32,
) -> Carried
    requires { after.left < after.right → after ≡ filled t.now n before }
    ensures { (wakes_rest result n side (state t.now w.new top) ≡ wakes_all count n first side (state t.now w.old top)) × (result.left ≤ count) }
{
    let mut leg = Carried {
        at: first,
        left: count,
        step: 0,
        more: worth_carrying(count, after),
    };
    while leg.more {
        leg = carry_leg(
            t, w, n, leg.at, leg.left, side, before, after, leg.step, top,
        );
    }
    leg
}
