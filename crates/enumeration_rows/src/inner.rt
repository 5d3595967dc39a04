// Relation rows and their waiting lists, in the lent work stretch. A row belongs to an element and a pair of
// generators: the letters of the pair in turn, 2m of them for the order m, lead from the element back to it, and the
// row keeps how far that is known from either end, with a gap between. It waits twice, so it is stored in two copies:
// one waits for the step on the left of the gap, one for the step on the right. A fact is a new step, and wakes the
// copies that wait for it.
// The block of element e starts at e * (6n² + 4n). It has a place for each generator, ten numbers (head, tail and count
// of its left list, then of its right list, the link of the fact stack, three spare), and then six numbers for each of
// its n(n - 1) copies of rows (pair, left index, right index, left element, right element, next). A link is a position
// in the stretch + 1, and 0 is none, so that a block never used is zero.
ghost use Rattle.std.specs.Prelude.{◌≡◌, ◌+◌, ◌*◌, ◌<◌, ◌≤◌};
ghost use Rattle.egg.specs.Table.{Place};
ghost use Rattle.enumeration_rows.specs.Rows.{place_at, rows_at, gen_of, stored_row, write_row, link_at, appended, list_at, waits, added_row, added_rows, Orders};

use egg::{GeneratorId, GroupElementId};

// 000's `RelationTableRow`: the pair (a, b) as 8a + b, the columns on the left and the right of the gap, and the
// elements there.
#[derive(Clone, Copy)]
pub struct RelationTableRow {
    pub pair: u32,
    pub left: u32,
    pub right: u32,
    pub from: GroupElementId,
    pub to: GroupElementId,
}

// The side of its gap on which a copy of a row waits.
#[derive(Clone, Copy)]
pub enum SideOfGap {
    Left,
    Right,
}

// Where the place of an element and a generator stands in the work.
pub fn place_at(n: u8, e: GroupElementId, g: GeneratorId) -> usize
    ensures { Place result (place_at n e g) 9007199254740992 }
{
    (e.0 as usize) * egg::inner::work_width(n) + 10 * (g.0 as usize)
}

// Where the copies of an element's rows start in the work.
pub fn rows_at(n: u8, e: GroupElementId) -> usize
    ensures { Place result (rows_at n e) 9007199254740992 }
{
    (e.0 as usize) * egg::inner::work_width(n) + 10 * (n as usize)
}

// 000's `generator`: the generator of a column of the row.
pub fn generator(pair: u32, index: u32) -> GeneratorId
    ensures { result ≡ gen_of pair index }
{
    if index % 2 == 0 {
        GeneratorId((pair / 8 % 8) as u8)
    } else {
        GeneratorId((pair % 8) as u8)
    }
}

// Reads a row. One test serves for the whole row, on the way that every run of 000 takes.
pub fn read_row(w: &[u32], at: usize) -> RelationTableRow
    requires { at < 36028797018963968 }
    ensures { result ≡ stored_row w.now at }
{
    if at + 5 < w.len() {
        return RelationTableRow {
            pair: w[at],
            left: w[at + 1],
            right: w[at + 2],
            from: GroupElementId(w[at + 3]),
            to: GroupElementId(w[at + 4]),
        };
    }
    RelationTableRow {
        pair: egg::inner::get(w, at),
        left: egg::inner::get(w, at + 1),
        right: egg::inner::get(w, at + 2),
        from: GroupElementId(egg::inner::get(w, at + 3)),
        to: GroupElementId(egg::inner::get(w, at + 4)),
    }
}

// Stores a row; its link is left as it is.
pub fn write_row(w: &mut [u32], at: usize, row: RelationTableRow)
    requires { at < 36028797018963968 }
    ensures { w.new ≡ write_row w.old at row }
{
    if at + 5 < w.len() {
        w[at] = row.pair;
        w[at + 1] = row.left;
        w[at + 2] = row.right;
        w[at + 3] = row.from.0;
        w[at + 4] = row.to.0;
        return;
    }
    egg::inner::put(w, at, row.pair as usize);
    egg::inner::put(w, at + 1, row.left as usize);
    egg::inner::put(w, at + 2, row.right as usize);
    egg::inner::put(w, at + 3, row.from.0 as usize);
    egg::inner::put(w, at + 4, row.to.0 as usize);
}

// Where the link to a new last copy goes: to the head of an empty list, else to the last copy's link.
pub fn link_at(list: usize, tail: u32) -> usize
    requires { list < 36028797018963968 }
    ensures { result ≡ link_at list tail }
{
    if tail == 0 { list } else { (tail as usize) + 4 }
}

// Puts the copy at `at` at the end of the list whose head, tail and count stand at `list`.
pub fn append(w: &mut [u32], list: usize, at: usize)
    requires { (list < 36028797018963968) × (at < 36028797018963968) }
    ensures { w.new ≡ appended w.old list at }
{
    let link = link_at(list, egg::inner::get(&w[..], list + 1));
    let count = egg::inner::get(&w[..], list + 2);
    egg::inner::put(w, at + 5, 0);
    egg::inner::put(w, link, at + 1);
    egg::inner::put(w, list + 1, at + 1);
    egg::inner::put(w, list + 2, (count as usize) + 1);
}

// Where the list stands in which a row waits on a side.
pub fn list_at(n: u8, row: RelationTableRow, side: SideOfGap) -> usize
    ensures { Place result (list_at n row side) 18014398509481984 }
{
    match side {
        SideOfGap::Left => place_at(n, row.from, generator(row.pair, row.left)),
        SideOfGap::Right => place_at(n, row.to, generator(row.pair, row.right)) + 3,
    }
}

// 000's `add_row_left` and `add_row_right`: stores a copy and puts it at the end of the list that it waits in.
pub fn wait(w: &mut [u32], n: u8, at: usize, row: RelationTableRow, side: SideOfGap)
    requires { at < 36028797018963968 }
    ensures { w.new ≡ waits w.old n at row side }
{
    write_row(w, at, row);
    append(w, list_at(n, row, side), at);
}

// 000's `add_row` of a `new_row`: both copies of the row of a pair at an element; the right copy stands after the left.
pub fn add_row(w: &mut [u32], n: u8, e: GroupElementId, at: usize, pair: u32, order: u32)
    requires { (at < 18014398509481984) × ((1 ≤ order) × (order < 32768)) }
    ensures { w.new ≡ added_row w.old n e at pair order }
{
    let row = RelationTableRow {
        pair,
        left: 0,
        right: order * 2 - 1,
        from: e,
        to: e,
    };
    write_row(w, at, row);
    append(w, list_at(n, row, SideOfGap::Left), at);
    write_row(w, at + 6, row);
    append(w, list_at(n, row, SideOfGap::Right), at + 6);
}

// Adds a row for each pair, at a new element.
pub fn add_rows(w: &mut [u32], orders: &[u32], n: u8, e: GroupElementId)
    requires { Orders orders.now }
    ensures { w.new ≡ added_rows w.old orders.now n e }
{
    let first = rows_at(n, e);
    for k in 0..orders.len() {
        add_row(w, n, e, first + 12 * k, egg::inner::pair_code(k), orders[k]);
    }
}
