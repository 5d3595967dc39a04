// What is tested before a step of a build is stored: the handle, the arguments, the step that would be overwritten, and
// the length of the word that a new element's word would extend.
ghost use Rattle.std.specs.Prelude.{◌≡◌, length};
ghost use Rattle.builder_arguments.specs.Places.{placed, placed_step, storable, over_long};

use egg::{Factor, GeneratorId, GroupElementId, Refusal};

// Refuses 17 for a handle that does not fit, then 14 for an element (place 0) or a generator (place 1) that the build
// does not have.
pub fn place(table: &[u32], f: Factor, e: GroupElementId, g: GeneratorId) -> Result<(), Refusal>
    ensures { result ≡ placed (length table.now) f e g }
{
    if !egg::fits(table, f) {
        return Err(Refusal::Unreadable);
    }
    if f.elements <= e.0 {
        return Err(Refusal::ArgumentOutside(0));
    }
    if f.generators <= g.0 {
        return Err(Refusal::ArgumentOutside(1));
    }
    Ok(())
}

// The same, then refuses 14 for the element that the step leads to (place 2).
pub fn place_step(
    table: &[u32],
    f: Factor,
    e: GroupElementId,
    g: GeneratorId,
    r: GroupElementId,
) -> Result<(), Refusal>
    ensures { result ≡ placed_step (length table.now) f e g r }
{
    place(table, f, e, g)?;
    if f.elements <= r.0 {
        return Err(Refusal::ArgumentOutside(2));
    }
    Ok(())
}

// The same, then refuses 17 for a stored step that leads beyond the elements of the build.
pub fn storable(
    table: &[u32],
    f: Factor,
    e: GroupElementId,
    g: GeneratorId,
    r: GroupElementId,
) -> Result<(), Refusal>
    ensures { result ≡ storable table.now f e g r }
{
    place_step(table, f, e, g, r)?;
    let s = egg::inner::part(table, f);
    let old = egg::inner::get(s, egg::inner::successor_at(f.generators, e, g));
    if f.elements < old {
        return Err(Refusal::Unreadable);
    }
    Ok(())
}

// True where 17 is due for a recorded length: there is room, since 5 comes first, and the word of e is longer than any
// may be.
pub fn over_long(t: &[u32], f: Factor, e: GroupElementId) -> bool
    ensures { result ≡ over_long t.now f e }
{
    if f.room <= f.elements {
        return false;
    }
    4096 < egg::inner::word_length(t, f.generators, e)
}
