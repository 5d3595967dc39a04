// The filling of a row: its two ends walk into its gap along the columns of the table. A walk is made in legs: a leg is
// the part of a walk in which every two steps lead equally many element numbers on.
ghost use Rattle.std.specs.Prelude.{◌≡◌, ◌+◌, ◌<◌, ◌≤◌, true};
ghost use Rattle.egg.specs.Table.{still_left};
ghost use Rattle.enumeration_rows.specs.Rows.{gen_of};
ghost use Rattle.enumeration_fill.specs.Fill.{backed, forwarded, filled};
ghost use Rattle.enumeration_fill.specs.Walk.{walk_from, onward};
ghost use Rattle.enumeration_fill.specs.Alike.{Alike};

use egg::{GeneratorId, GroupElementId};
use enumeration_rows::inner::RelationTableRow;

// An end of a row on its way: the element where it stands, and the steps that it has left.
#[derive(Clone, Copy)]
pub struct Walked {
    pub element: GroupElementId,
    pub left: u32,
}

// A leg of a walk: where it ends, how many steps are left, whether there is more of the walk, and by how many numbers
// its last two steps led on.
#[derive(Clone, Copy)]
pub struct Leg {
    pub element: GroupElementId,
    pub left: u32,
    pub more: bool,
    pub jump: u32,
}

// The generator of the columns next to the one of that index.
pub fn beside(pair: u32, index: u32) -> GeneratorId
    ensures { result ≡ gen_of pair (index + 1) }
{
    enumeration_rows::inner::generator(pair, index % 2 + 1)
}

// Walks on from an element along two columns of the table's rows in turn, at most `steps` steps, as long as two steps
// lead `jump` numbers on. That guess costs a test, and lets a processor read on before the cell that it waits for has
// come.
pub fn walk_leg(
    t: &[u32],
    n: u8,
    here: usize,
    there: usize,
    element: GroupElementId,
    steps: u32,
    jump: u32,
) -> Leg
    requires { (here < 4294967296) × (there < 4294967296) }
    ensures { (onward t.now n here there result ≡ walk_from steps t.now n element.0 here there) × (still_left result.more result.left ≤ steps) }
{
    let mut e = element.0;
    let mut left = steps;
    // Counted by hand: a turn is two steps, and may end after one.
    while left != 0 {
        let guess = e.wrapping_add(jump);
        let x = egg::inner::get(t, egg::inner::start(n, GroupElementId(e)) + here);
        if x == 0 {
            return Leg {
                element: GroupElementId(e),
                left,
                more: false,
                jump,
            };
        }
        left -= 1;
        if left == 0 {
            return Leg {
                element: GroupElementId(x - 1),
                left,
                more: false,
                jump,
            };
        }
        let y = egg::inner::get(t, egg::inner::start(n, GroupElementId(x - 1)) + there);
        if y == 0 {
            return Leg {
                element: GroupElementId(x - 1),
                left,
                more: false,
                jump,
            };
        }
        left -= 1;
        if guess != y - 1 {
            return Leg {
                element: GroupElementId(y - 1),
                left,
                more: true,
                jump: (y - 1).wrapping_sub(e),
            };
        }
        e = guess;
    }
    Leg {
        element: GroupElementId(e),
        left,
        more: false,
        jump,
    }
}

// A whole walk, leg by leg. Round a long relation the jumps are equal, so that a leg is long.
pub fn walk(
    t: &[u32],
    n: u8,
    here: usize,
    there: usize,
    element: GroupElementId,
    steps: u32,
) -> Walked
    requires { (here < 4294967296) × (there < 4294967296) }
    ensures { result ≡ walk_from steps t.now n element.0 here there }
{
    let mut leg = Leg {
        element,
        left: steps,
        more: true,
        jump: 0,
    };
    while leg.more {
        leg = walk_leg(t, n, here, there, leg.element, leg.left, leg.jump);
    }
    Walked {
        element: leg.element,
        left: leg.left,
    }
}

// The first loop of 000's `fill`: the right end goes back as far as it can.
pub fn back(t: &[u32], n: u8, row: RelationTableRow) -> RelationTableRow
    ensures { result ≡ backed t.now n row }
{
    if row.right <= row.left {
        return row;
    }
    let due = enumeration_rows::inner::generator(row.pair, row.right).0;
    let next = beside(row.pair, row.right).0;
    let here = (n as usize) + (due as usize);
    let there = (n as usize) + (next as usize);
    let end = walk(t, n, here, there, row.to, row.right - row.left);
    RelationTableRow {
        right: row.left + end.left,
        to: end.element,
        ..row
    }
}

// The second loop of 000's `fill`: the left end goes forward as far as it can.
pub fn forward(t: &[u32], n: u8, row: RelationTableRow) -> RelationTableRow
    ensures { result ≡ forwarded t.now n row }
{
    if row.right <= row.left {
        return row;
    }
    let due = enumeration_rows::inner::generator(row.pair, row.left).0;
    let next = beside(row.pair, row.left).0;
    let end = walk(
        t,
        n,
        due as usize,
        next as usize,
        row.from,
        row.right - row.left,
    );
    RelationTableRow {
        left: row.right - end.left,
        from: end.element,
        ..row
    }
}

// 000's `fill`: moves both ends into the gap as far as steps are known.
pub fn fill(t: &[u32], n: u8, row: RelationTableRow) -> RelationTableRow
    ensures { result ≡ filled t.now n row }
{
    forward(t, n, back(t, n, row))
}

// Answers true where a row stands as `before` does, with more than so many columns in its gap.
pub fn alike(row: RelationTableRow, before: RelationTableRow, columns: u32) -> bool
    ensures { result ≡ true → Alike row before columns }
{
    row.pair == before.pair
        && row.from.0 == before.from.0
        && row.to.0 == before.to.0
        && row.left % 2 == before.left % 2
        && row.right % 2 == before.right % 2
        && row.left < row.right
        && columns < row.right - row.left
}
