// The reading of rows into a table over lent bytes, as `build_reading` does it; the composed numbers are two bytes each, as an image has them.
ghost use Rattle.std.specs.Prelude.{◌≡◌};
ghost use Rattle.build_reading.specs.Reading.{Placed, read_place, read_row, read_all, composed_at};
ghost use Rattle.image_cells.specs.Cells.{cells, halves};

use super::table;
use egg::{GeneratorId, GroupElementId, Refusal};

// Reads one place. Refuses in this order: 7 for a number that skips ahead, 5 for an element beyond the room, 6 for a word that would pass 4,096.
fn place(
    t: &mut [u8],
    n: u8,
    room: u32,
    count: u32,
    e: GroupElementId,
    g: GeneratorId,
    v: u32,
) -> Result<u32, Refusal>
    ensures { Placed.placed result (cells t.new) ≡ read_place (cells t.old) n room count e.0 g.0 v }
{
    if count < v {
        return Err(Refusal::SkipsAhead(e, g, v));
    }
    if v < count {
        table::set_successor(t, n, e, g, GroupElementId(v));
        return Ok(count);
    }
    table::add_successor(t, n, room, count, e, g)?;
    Ok(count + 1)
}

// Reads one row.
fn read_row(
    t: &mut [u8],
    rows: &[u8],
    n: u8,
    room: u32,
    e: GroupElementId,
    first: u32,
) -> Result<u32, Refusal>
    ensures { Placed.placed result (cells t.new) ≡ read_row n (composed_at (halves rows.now) n) n room e.0 0 first (cells t.old) }
{
    let mut count = first;
    for g in 0..n {
        let v = image_cells::inner::half(rows, (e.0 as usize) * (n as usize) + (g as usize));
        count = place(t, n, room, count, e, GeneratorId(g), v)?;
    }
    Ok(count)
}

// Reads the rows in the order of their elements, as long as there is a next element.
pub fn read_rows(t: &mut [u8], rows: &[u8], n: u8, room: u32) -> Result<u32, Refusal>
    ensures { Placed.placed result (cells t.new) ≡ read_all (composed_at (halves rows.now) n) n room (cells t.old) }
{
    let mut count: u32 = 1;
    for e in 0..room {
        if count <= e {
            return Ok(count);
        }
        count = read_row(t, rows, n, room, GroupElementId(e), count)?;
    }
    Ok(count)
}
