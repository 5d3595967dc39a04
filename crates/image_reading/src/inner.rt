// Builds from an image's successors, two bytes each.
ghost use Rattle.std.specs.Prelude.{◌≡◌, length};
ghost use Rattle.build_lending.specs.Finish.{Built};
ghost use Rattle.build_reading.specs.Reading.{Placed, read_row, read_all, composed_at};
ghost use Rattle.image_cells.specs.Cells.{halves};
ghost use Rattle.image_reading.specs.Read.{reached_all, image_in};

use egg::{GeneratorId, GroupElementId, Refusal};

fn read_row(
    t: &mut [u32],
    rows: &[u8],
    n: u8,
    room: u32,
    e: GroupElementId,
    first: u32,
) -> Result<u32, Refusal>
    ensures { Placed.placed result t.new ≡ read_row n (composed_at (halves rows.now) n) n room e.0 0 first t.old }
{
    let mut count = first;
    for g in 0..n {
        let v = image_cells::inner::half(rows, (e.0 as usize) * (n as usize) + (g as usize));
        count = build_reading::inner::place(t, n, room, count, e, GeneratorId(g), v)?;
    }
    Ok(count)
}

// Reads the rows in the order of their elements, as long as there is a next element.
fn read_rows(t: &mut [u32], rows: &[u8], n: u8, room: u32) -> Result<u32, Refusal>
    ensures { Placed.placed result t.new ≡ read_all (composed_at (halves rows.now) n) n room t.old }
{
    let mut count: u32 = 1;
    for e in 0..room {
        if count <= e {
            return Ok(count);
        }
        count = read_row(t, rows, n, room, GroupElementId(e), count)?;
    }
    Ok(count)
}

// Refuses with 16 where fewer elements were reached than there is room for.
fn reached_all(room: u32, read: Result<u32, Refusal>) -> Result<u32, Refusal>
    ensures { result ≡ reached_all room read }
{
    let c = read?;
    if c < room {
        Err(Refusal::ImageMalformed)
    } else {
        Ok(c)
    }
}

// Does the whole build from an image's rows, in its stretches.
pub fn read_in(t: &mut [u32], w: &mut [u32], rows: &[u8], n: u8, room: u32) -> Result<u32, Refusal>
    ensures { Built.built result t.new w.new ≡ image_in (length t.old) w.old (halves rows.now) n room }
{
    egg::inner::clear(t);
    let read = read_rows(t, rows, n, room);
    let all = reached_all(room, read);
    build_lending::inner::finish(t, w, n, all)
}
