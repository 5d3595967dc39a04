// The stores of a build, and one place of a reading. A place is an element and a generator; a reading takes the number
// that a source has there, whatever the source is (a lent list, an image, a builder's own rows ..), and stores it in
// the stretch that was lent.
ghost use Rattle.std.specs.Prelude.{◌≡◌};
ghost use Rattle.build_reading.specs.Build.{is_new, set_step, set_word, adds};
ghost use Rattle.build_reading.specs.Reading.{Placed, read_place};

use egg::{GeneratorId, GroupElementId, Refusal};

// Sets the step from e by g to r and the step back; answers whether the step was not known before.
pub fn set_successor(
    t: &mut [u32],
    n: u8,
    e: GroupElementId,
    g: GeneratorId,
    r: GroupElementId,
) -> bool
    ensures { (result ≡ is_new t.old n e g) × (t.new ≡ set_step t.old n e g r) }
{
    let at = egg::inner::successor_at(n, e, g);
    let back = egg::inner::predecessor_at(n, r, g);
    let old = egg::inner::get(t, at);
    egg::inner::put(t, at, (r.0 as usize) + 1);
    egg::inner::put(t, back, (e.0 as usize) + 1);
    old == 0
}

// Records the word of a new element: its parent's word and one generator.
pub fn record_word(
    t: &mut [u32],
    n: u8,
    new: GroupElementId,
    e: GroupElementId,
    g: GeneratorId,
    len: u32,
)
    ensures { t.new ≡ set_word t.old n new e g len }
{
    let at = egg::inner::start(n, new) + 2 * (n as usize);
    egg::inner::put(t, at, e.0 as usize);
    egg::inner::put(t, at + 1, g.0 as usize);
    egg::inner::put(t, at + 2, len as usize);
}

// Adds a new element, reached from e by g. Refuses 5 where it is beyond the room, then 6 where its word would pass
// 4,096.
pub fn add_successor(
    t: &mut [u32],
    n: u8,
    room: u32,
    count: u32,
    e: GroupElementId,
    g: GeneratorId,
) -> Result<GroupElementId, Refusal>
    ensures { (result ≡ (adds t.old n room count e g).answer) × (t.new ≡ (adds t.old n room count e g).table) }
{
    if count >= room {
        return Err(Refusal::BeyondRoom(e, g));
    }
    let len = egg::inner::word_length(t, n, e);
    if len >= 4096 {
        return Err(Refusal::WordTooLong(e, g));
    }
    let new = GroupElementId(count);
    record_word(t, n, new, e, g, len + 1);
    set_successor(t, n, e, g, new);
    Ok(new)
}

// Reads one place, whose number is v: a number below the count is set, the count itself is a new element. Refuses 7
// where v skips ahead, then 5, then 6 as `add_successor` does.
pub fn place(
    t: &mut [u32],
    n: u8,
    room: u32,
    count: u32,
    e: GroupElementId,
    g: GeneratorId,
    v: u32,
) -> Result<u32, Refusal>
    ensures { Placed.placed result t.new ≡ read_place t.old n room count e.0 g.0 v }
{
    if count < v {
        return Err(Refusal::SkipsAhead(e, g, v));
    }
    if v < count {
        set_successor(t, n, e, g, GroupElementId(v));
        return Ok(count);
    }
    add_successor(t, n, room, count, e, g)?;
    Ok(count + 1)
}
