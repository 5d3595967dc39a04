// From builder.rs: a table that is built element by element, by `begin`, `add_successor`, `set_successor` and `build`.
#![tactic(auto)]

ghost use Rattle.std.specs.Prelude.{◌≡◌};
ghost use Rattle.build_lending.specs.Lending.{Making};
ghost use Rattle.builder.specs.Calls.{Leaving, begins, grows, stores, builds};

use egg::{Factor, GeneratorId, GroupElementId, Refusal};

pub mod inner;

// The handle of a build that is under way: a factor's numbers under a type of their own, since its table is not checked
// yet.
#[derive(Clone, Copy)]
pub struct Builder(pub Factor);

// What adding an element answers: the element, and the builder that knows it.
#[derive(Clone, Copy)]
pub struct Grown {
    pub answer: Result<GroupElementId, Refusal>,
    pub builder: Builder,
}

// What storing a step answers: whether the step was new or had been known.
#[derive(Clone, Copy)]
pub enum Stored {
    New,
    Known,
}

// Begins a build in the stretch of `table` that starts at `start`, with the identity alone. Refuses 1 for more than 8
// generators, then 4 for a room that is 0 or above 65,535 or a table that is too short.
pub fn begin(table: &mut [u32], start: usize, room: u32, n: u8) -> Result<Builder, Refusal>
    ensures { Leaving.leaving result table.new ≡ begins table.old start room n }
{
    if 8 < n {
        return Err(Refusal::TooManyGenerators(n as u32));
    }
    if !egg::has_room(table.len(), start, room, n) {
        return Err(Refusal::TooShort);
    }
    let end = build_lending::inner::stretch_end(table.len(), start, room, n);
    egg::inner::clear(&mut table[start..end]);
    Ok(Builder(Factor {
        start,
        room,
        generators: n,
        elements: 1,
    }))
}

// Adds a new element, reached from e by g, and answers it with the builder that knows it. Refuses in this order: 17 for
// a handle that does not fit and 14 for an element (place 0) or a generator (place 1) that the build does not have,
// which change nothing; then 5 for an element beyond the room, 17 for a recorded length over 4,096 and 6 for a word
// that would pass 4,096, which end the build: its stretch is zero then.
pub fn add_successor(table: &mut [u32], b: Builder, e: GroupElementId, g: GeneratorId) -> Grown
    ensures { Leaving.leaving result table.new ≡ grows table.old b e g }
{
    let f = b.0;
    match builder_arguments::inner::place(table, f, e, g) {
        Err(why) => Grown {
            answer: Err(why),
            builder: b,
        },
        Ok(()) => {
            let end = build_lending::inner::stretch_end(table.len(), f.start, f.room, f.generators);
            inner::grow(&mut table[f.start..end], f, e, g)
        }
    }
}

// Sets the step e·g = r and the step back; it overwrites, and answers whether the place was new. Refuses 17 for a
// handle that does not fit, then 14 for an element (place 0), a generator (1) or a second element (2) that the build
// does not have, then 17 for a stored step that leads beyond its elements. A refusal changes nothing.
pub fn set_successor(
    table: &mut [u32],
    b: Builder,
    e: GroupElementId,
    g: GeneratorId,
    r: GroupElementId,
) -> Result<Stored, Refusal>
    ensures { Leaving.leaving result table.new ≡ stores table.old b e g r }
{
    let f = b.0;
    builder_arguments::inner::storable(table, f, e, g, r)?;
    let end = build_lending::inner::stretch_end(table.len(), f.start, f.room, f.generators);
    if build_reading::inner::set_successor(&mut table[f.start..end], f.generators, e, g, r) {
        Ok(Stored::New)
    } else {
        Ok(Stored::Known)
    }
}

// Makes a factor of what was built, and answers its handle. The builder's own successors are read again as composed
// rows are, since steps may have been overwritten. Refuses in this order: 17 for a handle that does not fit, 4 for a
// work buffer that is too short; then, leaving both stretches zero, what the reading refuses (7 or 6, or 17 for a
// number that is no element's), and 8 to 12.
pub fn build(table: &mut [u32], b: Builder, work: &mut [u32]) -> Result<Factor, Refusal>
    ensures { Making.making result table.new work.new ≡ builds table.old b work.old }
{
    let f = b.0;
    if !egg::fits(table, f) {
        return Err(Refusal::Unreadable);
    }
    let need = build_lending::inner::work_need(f.generators, f.room);
    if work.len() < need {
        return Err(Refusal::TooShort);
    }
    let end = build_lending::inner::stretch_end(table.len(), f.start, f.room, f.generators);
    let count = builder_rereading::inner::complete(
        &mut table[f.start..end],
        &mut work[..need],
        f.generators,
        f.room,
        f.elements,
    );
    build_lending::inner::made(f.start, f.room, f.generators, count)
}
