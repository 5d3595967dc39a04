// The work of `build` in the stretches that were lent: the builder's own successors are copied into the work and read
// again into a table of zeros.
ghost use Rattle.std.specs.Prelude.{◌≡◌, ◌*◌, ◌≤◌, length, set};
ghost use Rattle.build_reading.specs.Reading.{Placed};
ghost use Rattle.build_lending.specs.Finish.{Built};
ghost use Rattle.builder_rereading.specs.Own.{own_place, own_row, own_all, reaches_all, own_in, copied_step, copied_row, copied};

use egg::{GeneratorId, GroupElementId, Refusal};

// Stores x at i; does nothing past the end.
fn keep(w: &mut [u32], i: usize, x: u32)
    ensures { w.new ≡ set w.old i x }
{
    if i < w.len() {
        w[i] = x;
    }
}

// Copies the successors of one element.
fn copy_row(t: &[u32], w: &mut [u32], n: u8, e: GroupElementId)
    ensures { w.new ≡ copied_row n t.now n e.0 0 w.old }
{
    for g in 0..n {
        let at = egg::inner::successor_at(n, e, GeneratorId(g));
        let x = egg::inner::get(t, at);
        keep(w, (e.0 as usize) * (n as usize) + (g as usize), x);
    }
}

// Copies the successors of all elements to the front of the work, so that nothing is read from what is being written.
fn copy_rows(t: &[u32], w: &mut [u32], n: u8, elements: u32)
    ensures { w.new ≡ copied elements t.now n 0 w.old }
{
    for e in 0..elements {
        copy_row(t, w, n, GroupElementId(e));
    }
}

// Reads one place of the builder's own rows, where x stands: a missing step is left to 8, and a number that is no
// element's is 17.
fn own_place(
    t: &mut [u32],
    n: u8,
    room: u32,
    elements: u32,
    count: u32,
    e: GroupElementId,
    g: GeneratorId,
    x: u32,
) -> Result<u32, Refusal>
    ensures { Placed.placed result t.new ≡ own_place t.old n room elements count e.0 g.0 x }
{
    if x == 0 {
        return Ok(count);
    }
    if elements < x {
        return Err(Refusal::Unreadable);
    }
    build_reading::inner::place(t, n, room, count, e, g, x - 1)
}

// Reads one row, place by place.
fn own_row(
    t: &mut [u32],
    w: &[u32],
    n: u8,
    room: u32,
    elements: u32,
    e: GroupElementId,
    first: u32,
) -> Result<u32, Refusal>
    ensures { Placed.placed result t.new ≡ own_row n (copied_step w.now n) n room elements e.0 0 first t.old }
{
    let mut count = first;
    for g in 0..n {
        let x = egg::inner::get(w, (e.0 as usize) * (n as usize) + (g as usize));
        count = own_place(t, n, room, elements, count, e, GeneratorId(g), x)?;
    }
    Ok(count)
}

// Reads the rows in the order of their elements, as long as there is a next element that is known.
fn own_rows(t: &mut [u32], w: &[u32], n: u8, room: u32, elements: u32) -> Result<u32, Refusal>
    ensures { Placed.placed result t.new ≡ own_all (copied_step w.now n) n room elements t.old }
{
    let mut count = 1;
    for e in 0..elements {
        if count <= e {
            return Ok(count);
        }
        count = own_row(t, w, n, room, elements, GroupElementId(e), count)?;
    }
    Ok(count)
}

// Refusal 8 where an element was not reached: its row was not read, so that its successors are missing.
fn reached_all(t: &[u32], n: u8, elements: u32, read: Result<u32, Refusal>) -> Result<u32, Refusal>
    ensures { Placed.placed result t.now ≡ reaches_all n elements (Placed.placed read t.now) }
{
    let count = read?;
    if elements <= count {
        return Ok(count);
    }
    if n == 0 {
        return Err(Refusal::Unreadable);
    }
    build_checks::inner::check8(t, n, elements)?;
    Ok(count)
}

// Ends a build by steps, which may have been overwritten: makes the table afresh from its successors, and then does as
// every build ends.
pub fn complete(
    t: &mut [u32],
    w: &mut [u32],
    n: u8,
    room: u32,
    elements: u32,
) -> Result<u32, Refusal>
    requires { elements * n ≤ length w.old }
    ensures { Built.built result t.new w.new ≡ own_in t.old w.old n room elements }
{
    copy_rows(t, w, n, elements);
    egg::inner::clear(t);
    let read = own_rows(t, w, n, room, elements);
    let whole = reached_all(t, n, elements, read);
    build_lending::inner::finish(t, w, n, whole)
}
