// The work of `flatten`, done once the handles are known to fit and the product's elements to have numbers of 32 bits.
ghost use Rattle.std.specs.Prelude.{◌≡◌, true, ◌<◌, ◌≤◌, length};
ghost use Rattle.group_handles.specs.Handles.{handles, elements_of, all_fit};
ghost use Rattle.group_digits.specs.Digits.{step_in};
ghost use Rattle.build_lending.specs.Finish.{Built};
ghost use Rattle.build_lending.specs.Lending.{Making};
ghost use Rattle.build_reading.specs.Reading.{Placed};
ghost use Rattle.group_flatten.specs.Flat.{row_by, rows_by, flat_in, flat_into};

use egg::{Factor, GeneratorId, GroupElementId, Refusal};
use group_handles::Group;

// Reads one row: the product's own steps from e.
fn flat_row(
    t: &mut [u32],
    from: &[u32],
    g: Group,
    n: u8,
    room: u32,
    e: GroupElementId,
    first: u32,
) -> Result<u32, Refusal>
    requires { (all_fit (length from.now) (handles g) ≡ true) × ((elements_of (handles g) ≤ 4294967295) × (e.0 < elements_of (handles g))) }
    ensures { Placed.placed result t.new ≡ row_by n (step_in from.now (handles g)) n room e.0 0 first t.old }
{
    let mut count = first;
    for x in 0..n {
        let y = group_digits::inner::step_in(from, g, e, GeneratorId(x))?;
        count = build_reading::inner::place(t, n, room, count, e, GeneratorId(x), y.0)?;
    }
    Ok(count)
}

// Reads the rows in the order of their elements, as long as there is a next element.
fn flat_rows(t: &mut [u32], from: &[u32], g: Group, n: u8, room: u32) -> Result<u32, Refusal>
    requires { (all_fit (length from.now) (handles g) ≡ true) × (elements_of (handles g) ≤ 4294967295) }
    ensures { Placed.placed result t.new ≡ rows_by room (step_in from.now (handles g)) n room 0 1 t.old }
{
    let mut count: u32 = 1;
    for e in 0..room {
        if count <= e {
            return Ok(count);
        }
        count = flat_row(t, from, g, n, room, GroupElementId(e), count)?;
    }
    Ok(count)
}

// Does the whole build, in its stretches.
fn flat_in(
    t: &mut [u32],
    w: &mut [u32],
    from: &[u32],
    g: Group,
    n: u8,
    room: u32,
) -> Result<u32, Refusal>
    requires { (all_fit (length from.now) (handles g) ≡ true) × (elements_of (handles g) ≤ 4294967295) }
    ensures { Built.built result t.new w.new ≡ flat_in (length t.old) w.old from.now (handles g) n room }
{
    egg::inner::clear(t);
    let read = flat_rows(t, from, g, n, room);
    build_lending::inner::finish(t, w, n, read)
}

// Refuses with 1 more than 8 generators, then with 4 a room out of range or a short buffer; else builds.
pub fn flat_into(
    from: &[u32],
    g: Group,
    table: &mut [u32],
    start: usize,
    work: &mut [u32],
    room: u32,
) -> Result<Factor, Refusal>
    requires { (all_fit (length from.now) (handles g) ≡ true) × (elements_of (handles g) ≤ 4294967295) }
    ensures { Making.making result table.new work.new ≡ flat_into from.now (handles g) table.old start work.old room }
{
    let k = group_handles::inner::look(from, g).generators;
    if 8 < k {
        return Err(Refusal::TooManyGenerators(k));
    }
    let n = k as u8;
    if !build_lending::inner::lent_right(table.len(), start, work.len(), room, n) {
        return Err(Refusal::TooShort);
    }
    let end = build_lending::inner::stretch_end(table.len(), start, room, n);
    let need = build_lending::inner::work_need(n, room);
    let count = flat_in(&mut table[start..end], &mut work[..need], from, g, n, room);
    build_lending::inner::made(start, room, n, count)
}
