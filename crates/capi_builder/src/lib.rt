// The builder's calls as C functions. A builder's handle is four numbers, as a factor's is: start, room, generators, and how many elements it knows.
// `capi_builder_c` exports them to C.
#![tactic(auto)]

ghost use Rattle.std.specs.Prelude.{◌≡◌, [], ◌∷◌};
ghost use Rattle.egg.specs.Answers.{answer_of};
ghost use Rattle.egg.specs.Factor.{verdict_paper, reached_paper};
ghost use Rattle.builder.specs.Calls.{Leaving, begins, grows, stores, builds};
ghost use Rattle.capi_values.specs.Bridge.{handle, telling, in_out, bridged};
ghost use Rattle.capi_builder.specs.Answers.{stored_code, reached_into, begun_into, grown_into, begun_told, grown_told, stored_told};

use builder::{Builder, Grown, Stored};
use capi_values::inner;
use egg::{GeneratorId, GroupElementId, Refusal};

// The builder with this handle.
fn builder_of(start: usize, room: u32, n: u8, count: u32) -> Builder
    ensures { result ≡ record { 0 = handle start room n count } }
{
    Builder(inner::factor_of(start, room, n, count))
}

// Says whether a stored step was new, 1 or 0, or gives the refusal's number.
fn stored_code(s: Result<Stored, Refusal>) -> u64
    ensures { result ≡ stored_code s }
{
    match s {
        Ok(Stored::New) => 1,
        Ok(Stored::Known) => 0,
        Err(why) => inner::refusal_code(why),
    }
}

// Writes 0 and the element that was asked for, or the refusal, and hands the number back.
fn write_reached(out: &mut [u32], r: Result<GroupElementId, Refusal>) -> u32
    ensures { (result ≡ (reached_paper r).number) × (out.new ≡ reached_into r out.old) }
{
    match r {
        Err(why) => inner::write_refusal(out, why),
        Ok(e) => {
            egg::inner::put(out, 0, 0);
            egg::inner::put(out, 1, e.0 as usize);
            egg::inner::put(out, 2, 0);
            egg::inner::put(out, 3, 0);
            0
        }
    }
}

// Writes the verdict, and after it how many elements the builder knows: 0 where there is none. Hands the verdict's number back.
fn write_begun(out: &mut [u32], b: Result<Builder, Refusal>) -> u32
    ensures { (result ≡ (verdict_paper (answer_of b)).number) × (out.new ≡ begun_into b out.old) }
{
    match b {
        Err(why) => inner::write_made(out, Err(why)),
        Ok(b) => inner::write_made(out, Ok(b.0)),
    }
}

// Writes the new element or the refusal, and after it how many elements the builder knows. Hands the number back.
fn write_grown(out: &mut [u32], g: Grown) -> u32
    ensures { (result ≡ (reached_paper g.answer).number) × (out.new ≡ grown_into g out.old) }
{
    let number = write_reached(out, g.answer);
    egg::inner::put(out, 4, g.builder.0.elements as usize);
    number
}

// Begins a build in the stretch of table that starts at start. Refuses in this order: 4 for an out shorter than 5, 1 for more than 8 generators, 4
// for a room out of range or a short table.
pub fn hg_begin(table: &mut [u32], start: usize, room: u32, n: u8, out: &mut [u32]) -> u32
    ensures { telling result out.new (table.new ∷ []) ≡ in_out 5 out.old (table.old ∷ []) (begun_told (begins table.old start room n) out.old) }
{
    if out.len() < 5 {
        return 4;
    }
    let b = builder::begin(table, start, room, n);
    write_begun(out, b)
}

// Adds a new element, reached from e by g. Refuses in this order: 4 for an out shorter than 5, 17 for a handle that does not fit, 14 for an element
// or a generator out of range, which touch nothing; then 5 beyond the room, 17 for a length read that is over 4,096, 6 for a word that would pass
// 4,096, which end the build.
pub fn hg_add(
    table: &mut [u32],
    start: usize,
    room: u32,
    n: u8,
    count: u32,
    e: u32,
    g: u8,
    out: &mut [u32],
) -> u32
    ensures { telling result out.new (table.new ∷ []) ≡ in_out 5 out.old (table.old ∷ []) (grown_told (grows table.old (record { 0 = handle start room n count }) (record { 0 = e }) (record { 0 = g })) out.old) }
{
    if out.len() < 5 {
        return 4;
    }
    let b = builder_of(start, room, n, count);
    let r = builder::add_successor(table, b, GroupElementId(e), GeneratorId(g));
    write_grown(out, r)
}

// Sets the step from e by g to x, both ways, and says whether the place was new. Refuses in this order: 17 for a handle that does not fit, 14 for an
// element or a generator out of range, 17 for a stored step that is.
pub fn hg_set(
    table: &mut [u32],
    start: usize,
    room: u32,
    n: u8,
    count: u32,
    e: u32,
    g: u8,
    x: u32,
) -> u64
    ensures { Leaving.leaving result table.new ≡ stored_told (stores table.old (record { 0 = handle start room n count }) (record { 0 = e }) (record { 0 = g }) (record { 0 = x })) }
{
    let b = builder_of(start, room, n, count);
    let from = GroupElementId(e);
    let to = GroupElementId(x);
    let s = builder::set_successor(table, b, from, GeneratorId(g), to);
    stored_code(s)
}

// Reads the builder's steps, checks them and makes them a factor. Refuses in this order: 4 for an out shorter than 5, 17 for a handle that does not
// fit, 4 for short work, 17, 7 or 6 while it reads, then 8 to 12.
pub fn hg_build(
    table: &mut [u32],
    start: usize,
    room: u32,
    n: u8,
    count: u32,
    work: &mut [u32],
    out: &mut [u32],
) -> u32
    ensures { telling result out.new (table.new ∷ work.new ∷ []) ≡ in_out 5 out.old (table.old ∷ work.old ∷ []) (bridged (builds table.old (record { 0 = handle start room n count }) work.old) out.old) }
{
    if out.len() < 5 {
        return 4;
    }
    let b = builder_of(start, room, n, count);
    let m = builder::build(table, b, work);
    inner::write_made(out, m)
}
