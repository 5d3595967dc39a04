// The cells of `egg` and the stores of `build_reading` over lent bytes, four bytes to a cell. They have the same definitions, asked of the `cells`
// that the bytes spell.
ghost use Rattle.std.specs.Prelude.{◌≡◌, ◌+◌, ◌*◌, get_or};
ghost use Rattle.egg.specs.Table.{start_of, last_of, step_of, back_of};
ghost use Rattle.build_reading.specs.Build.{is_new, set_step, set_word, adds};
ghost use Rattle.image_cells.specs.Cells.{cells};

use egg::{GeneratorId, GroupElementId, Refusal};

// Answers the k-th number, from `shift` on, of the row of e.
pub fn cell(t: &[u8], n: u8, e: GroupElementId, shift: u8, k: u32) -> u32
    ensures { result ≡ get_or (cells t.now) (start_of n e.0 + shift + k) 0 }
{
    image_cells::inner::get(t, egg::inner::start(n, e) + (shift as usize) + (k as usize))
}

// Answers the step in a table with nothing missing.
pub fn step(t: &[u8], n: u8, e: GroupElementId, g: GeneratorId) -> GroupElementId
    ensures { result.0 ≡ step_of (cells t.now) n e.0 g.0 }
{
    egg::inner::element(image_cells::inner::get(t, egg::inner::start(n, e) + (g.0 as usize)))
}

pub fn parent(t: &[u8], n: u8, e: GroupElementId) -> u32
    ensures { result ≡ get_or (cells t.now) (start_of n e.0 + 2 * n) 0 }
{
    image_cells::inner::get(t, egg::inner::start(n, e) + 2 * (n as usize))
}

pub fn last(t: &[u8], n: u8, e: GroupElementId) -> u32
    ensures { result ≡ last_of (cells t.now) n e.0 }
{
    image_cells::inner::get(t, egg::inner::hop_at(n, e)) % 8
}

// Answers the step from x by the last letter of the word of e.
pub fn step_last(t: &[u8], n: u8, x: GroupElementId, e: GroupElementId) -> GroupElementId
    ensures { result.0 ≡ step_of (cells t.now) n x.0 (last_of (cells t.now) n e.0) }
{
    egg::inner::element(image_cells::inner::get(
        t,
        egg::inner::start(n, x) + (last(t, n, e) as usize),
    ))
}

// Answers the step back from x by that letter.
pub fn back_last(t: &[u8], n: u8, x: GroupElementId, e: GroupElementId) -> GroupElementId
    ensures { result.0 ≡ back_of (cells t.now) n x.0 (last_of (cells t.now) n e.0) }
{
    egg::inner::element(cell(t, n, x, n, last(t, n, e)))
}

pub fn word_length(t: &[u8], n: u8, e: GroupElementId) -> u32
    ensures { result ≡ get_or (cells t.now) (start_of n e.0 + 2 * n + 2) 0 }
{
    image_cells::inner::get(t, egg::inner::start(n, e) + 2 * (n as usize) + 2)
}

// Sets the step both ways; says whether it was not known before.
pub fn set_successor(
    t: &mut [u8],
    n: u8,
    e: GroupElementId,
    g: GeneratorId,
    r: GroupElementId,
) -> bool
    ensures { (result ≡ is_new (cells t.old) n e g) × (cells t.new ≡ set_step (cells t.old) n e g r) }
{
    let at = egg::inner::successor_at(n, e, g);
    let back = egg::inner::predecessor_at(n, r, g);
    let old = image_cells::inner::get(t, at);
    image_cells::inner::put(t, at, (r.0 as usize) + 1);
    image_cells::inner::put(t, back, (e.0 as usize) + 1);
    old == 0
}

// Records the word of a new element: its parent's word and one generator.
fn record_word(
    t: &mut [u8],
    n: u8,
    new: GroupElementId,
    e: GroupElementId,
    g: GeneratorId,
    len: u32,
)
    ensures { cells t.new ≡ set_word (cells t.old) n new e g len }
{
    let at = egg::inner::start(n, new) + 2 * (n as usize);
    image_cells::inner::put(t, at, e.0 as usize);
    image_cells::inner::put(t, at + 1, g.0 as usize);
    image_cells::inner::put(t, at + 2, len as usize);
}

// Adds a new element, reached from e by g. Refuses in this order: 5 beyond the room, 6 where its word would pass 4,096.
pub fn add_successor(
    t: &mut [u8],
    n: u8,
    room: u32,
    count: u32,
    e: GroupElementId,
    g: GeneratorId,
) -> Result<GroupElementId, Refusal>
    ensures { (result ≡ (adds (cells t.old) n room count e g).answer) × (cells t.new ≡ (adds (cells t.old) n room count e g).table) }
{
    if count >= room {
        return Err(Refusal::BeyondRoom(e, g));
    }
    let len = word_length(t, n, e);
    if len >= 4096 {
        return Err(Refusal::WordTooLong(e, g));
    }
    let new = GroupElementId(count);
    record_word(t, n, new, e, g, len + 1);
    set_successor(t, n, e, g, new);
    Ok(new)
}
