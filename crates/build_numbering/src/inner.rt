// The work of a numbering in order of first appearance, in the stretches and maps that were lent. The outside elements
// are those that are numbered; `inn` has the number of each of them, or 4,294,967,295 where it has none yet, and `outw`
// has the outside element of each number.
ghost use Rattle.std.specs.Prelude.{◌≡◌, length, replicate};
ghost use Rattle.egg.specs.Table.{put_at};
ghost use Rattle.build_reading.specs.Reading.{Placed};
ghost use Rattle.build_numbering.specs.Renumber.{no_number, Mapped, map_place};
ghost use Rattle.build_numbering.specs.Build.{kept_after};

use egg::{GeneratorId, GroupElementId, Refusal};

// Numbers what stands at one place: x is the outside element to which g leads from e. It has a number, which is set, or
// gets the next. Refuses 5 where that is beyond the room, then 6 where its word would pass 4,096.
pub fn place(
    t: &mut [u32],
    inn: &mut [u32],
    outw: &mut [u32],
    n: u8,
    room: u32,
    count: u32,
    e: GroupElementId,
    g: GeneratorId,
    x: GroupElementId,
) -> Result<u32, Refusal>
    ensures { Mapped.mapped (Placed.placed result t.new) inn.new outw.new ≡ map_place t.old inn.old outw.old n room count e.0 g.0 x.0 }
{
    let v = egg::inner::get(inn, x.0 as usize);
    if v != 4294967295 {
        build_reading::inner::set_successor(t, n, e, g, GroupElementId(v));
        return Ok(count);
    }
    build_reading::inner::add_successor(t, n, room, count, e, g)?;
    egg::inner::put(inn, x.0 as usize, count as usize);
    egg::inner::put(outw, count as usize, x.0 as usize);
    Ok(count + 1)
}

// Fills a map with 4,294,967,295, which is no element number.
fn mark(s: &mut [u32])
    ensures { s.new ≡ replicate (length s.old) no_number }
{
    s.fill(4294967295);
}

// Sets the maps as they are before a numbering: of the outside elements x alone has a number, 0.
pub fn start(inn: &mut [u32], outw: &mut [u32], x: GroupElementId)
    ensures { (inn.new ≡ put_at (replicate (length inn.old) no_number) x.0 0) × (outw.new ≡ put_at (replicate (length outw.old) 0) 0 x.0) }
{
    mark(inn);
    egg::inner::clear(outw);
    egg::inner::put(inn, x.0 as usize, 0);
    egg::inner::put(outw, 0, x.0 as usize);
}

// Leaves the maps as document 01 wants them: zero after a refusal.
pub fn settle(inn: &mut [u32], outw: &mut [u32], made: Result<u32, Refusal>) -> Result<u32, Refusal>
    ensures { (result ≡ made) × ((inn.new ≡ kept_after made inn.old) × (outw.new ≡ kept_after made outw.old)) }
{
    match made {
        Err(why) => {
            egg::inner::clear(inn);
            egg::inner::clear(outw);
            Err(why)
        }
        Ok(count) => Ok(count),
    }
}
