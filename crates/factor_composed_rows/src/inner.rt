// The build from composed rows, in the stretches that were lent.
ghost use Rattle.std.specs.Prelude.{◌≡◌, length};
ghost use Rattle.build_lending.specs.Finish.{Built};
ghost use Rattle.build_reading.specs.Reading.{Placed, read_row, read_all, composed_at};
ghost use Rattle.factor_composed_rows.specs.Rows.{composed_in};

use egg::{GeneratorId, GroupElementId, Refusal};

// Reads one row, place by place.
fn read_row(
    t: &mut [u32],
    rows: &[u32],
    n: u8,
    room: u32,
    e: GroupElementId,
    first: u32,
) -> Result<u32, Refusal>
    ensures { Placed.placed result t.new ≡ read_row n (composed_at rows.now n) n room e.0 0 first t.old }
{
    let mut count = first;
    for g in 0..n {
        let v = egg::inner::get(rows, (e.0 as usize) * (n as usize) + (g as usize));
        count = build_reading::inner::place(t, n, room, count, e, GeneratorId(g), v)?;
    }
    Ok(count)
}

// Reads the rows in the order of their elements, as long as there is a next element that is known.
fn read_rows(t: &mut [u32], rows: &[u32], n: u8, room: u32) -> Result<u32, Refusal>
    ensures { Placed.placed result t.new ≡ read_all (composed_at rows.now n) n room t.old }
{
    let mut count: u32 = 1;
    for e in 0..room {
        if count <= e {
            return Ok(count);
        }
        count = read_row(t, rows, n, room, GroupElementId(e), count)?;
    }
    Ok(count)
}

// The whole build: zeroes the table, reads the rows into it, and ends as every build does.
pub fn compose_in(
    t: &mut [u32],
    w: &mut [u32],
    rows: &[u32],
    n: u8,
    room: u32,
) -> Result<u32, Refusal>
    ensures { Built.built result t.new w.new ≡ composed_in (length t.old) w.old rows.now n room }
{
    egg::inner::clear(t);
    let read = read_rows(t, rows, n, room);
    build_lending::inner::finish(t, w, n, read)
}
