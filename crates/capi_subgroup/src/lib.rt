// The calls on subgroups as C functions. The overgroup is a product, as in `capi_group`; a subgroup is 128 numbers in a lent list: the handle of its
// factor, how many factors are below, over and above, and their handles. A handle that is not wholly in the list is no factor, which fits no buffer
// (17); a count that is missing is 0.
// `capi_subgroup_c` exports them to C.
#![tactic(auto)]

ghost use Rattle.std.specs.Prelude.{◌≡◌, [], ◌∷◌, length, get_or};
ghost use Rattle.egg.specs.Answers.{answer_of};
ghost use Rattle.egg.specs.Factor.{verdict_paper};
ghost use Rattle.capi_values.specs.Bridge.{reached_code, counted_code, telling, in_out, verdict_told};
ghost use Rattle.capi_handles.specs.Product.{byte_of, product_of, product_at};
ghost use Rattle.group_handles.specs.Handles.{handles, seen};
ghost use Rattle.subgroup.specs.Outline.{outline_of, Measured};
ghost use Rattle.subgroup_build.specs.Generated.{from_generators};
ghost use Rattle.subgroup_predicate.specs.Predicate.{from_predicate};
ghost use Rattle.subgroup_sides.specs.Sides.{left_product, right_product};
ghost use Rattle.subgroup.specs.Questions.{to_over_answer, to_sub_answer, generator_answer, generator_count_answer};
ghost use Rattle.capi_subgroup.specs.Subgroup.{subgroup_from, within_code, subgrouped_into, subgroup_told};

use egg::{Factor, GeneratorId, GroupElementId, Refusal};
use group_handles::inner::Seen;
use subgroup::inner::Outline;
use subgroup_build::Subgroup;

// Reads a count of factors.
fn count_at(l: &[u32], at: u32) -> u8
    ensures { result ≡ byte_of (get_or l.now at 0) }
{
    capi_handles::inner::byte_of(egg::inner::get(l, at as usize))
}

// Reads the subgroup that the list holds.
fn subgroup_from(l: &[u32]) -> Subgroup
    ensures { result ≡ subgroup_from l.now }
{
    let factor = capi_handles::inner::handle_at(l, 0);
    let below = capi_handles::inner::product_at(l, 8, count_at(l, 5));
    let over = capi_handles::inner::product_at(l, 48, count_at(l, 6));
    let above = capi_handles::inner::product_at(l, 88, count_at(l, 7));
    Subgroup {
        below,
        factor,
        over,
        above,
    }
}

// Reads the outline of `subgroup_from(l)`: the questions need no more of it.
fn outline_from(from: &[u32], table: &[u32], l: &[u32]) -> Outline
    ensures { (result ≡ outline_of (length from.now) (length table.now) (subgroup_from l.now)) × Measured result }
{
    let factor = capi_handles::inner::handle_at(l, 0);
    let fits = egg::fits(table, factor);
    let k = count_at(l, 5);
    let m = count_at(l, 6);
    let n = count_at(l, 7);
    let below = capi_handles::inner::look_at(from, l, 8, k);
    let over = capi_handles::inner::look_at(from, l, 48, m);
    let above = capi_handles::inner::look_at(from, l, 88, n);
    let few = subgroup_sides::inner::few_of(k, m, n);
    subgroup::inner::outline_by(fits, few, factor.elements, below, over, above)
}

// One number for an answer about an element of the subgroup.
fn within_code(r: Result<Option<GroupElementId>, Refusal>) -> u64
    ensures { result ≡ within_code r }
{
    match r {
        Ok(Some(e)) => e.0 as u64,
        Ok(None) => 4294967295,
        Err(why) => capi_values::inner::refusal_code(why),
    }
}

// The verdict alone.
fn verdict_of(m: Result<Subgroup, Refusal>) -> Result<(), Refusal>
    ensures { result ≡ answer_of m }
{
    m.map(|_| ())
}

// Writes the verdict, the element count and how many generators the subgroup has, 0 where it was refused. Hands the verdict's number back.
fn write_subgrouped(out: &mut [u32], m: Result<Subgroup, Refusal>) -> u32
    ensures { (result ≡ (verdict_paper (answer_of m)).number) × (out.new ≡ subgrouped_into m out.old) }
{
    match m {
        Ok(s) => {
            let number = capi_values::inner::write_made(out, Ok(s.factor));
            egg::inner::put(out, 5, s.factor.generators as usize);
            number
        }
        Err(why) => {
            let number = capi_values::inner::write_made(out, Err(why));
            egg::inner::put(out, 5, 0);
            number
        }
    }
}

// Builds the subgroup that the elements gens of a product generate; inn maps the overgroup to it, outw back. Refuses in this order: 4 for an out
// shorter than 6, 17 for a handle that does not fit, 14 for the first entry that is no element, 15 for an overgroup too large to number, 1 for more
// than 8 generators, 4 for a room out of range or a short buffer, 17, 5 or 6 while it numbers, then 8 to 12.
pub fn hg_subgroup(
    from: &[u32],
    handles: &[u32],
    count: u8,
    gens: &[u32],
    table: &mut [u32],
    start: usize,
    work: &mut [u32],
    inn: &mut [u32],
    outw: &mut [u32],
    room: u32,
    out: &mut [u32],
) -> u32
    ensures { telling result out.new (table.new ∷ work.new ∷ inn.new ∷ outw.new ∷ []) ≡ in_out 6 out.old (table.old ∷ work.old ∷ inn.old ∷ outw.old ∷ []) (subgroup_told (from_generators from.now (product_of handles.now count) gens.now table.old start work.old inn.old outw.old room) out.old) }
{
    if out.len() < 6 {
        return 4;
    }
    let over = capi_handles::inner::product_of(handles, count);
    let m = subgroup::from_generators(from, over, gens, table, start, work, inn, outw, room);
    write_subgrouped(out, m)
}

// Builds the subgroup of a byte for each element of the product, not 0 for a member; table and work are lent as for eight generators. Refuses in this
// order: 4 for an out shorter than 6, 17 for a handle that does not fit, 15 for an overgroup too large to number, 4 for a room out of range, a short
// buffer or too few bytes; then the first refusal of a build, or 15 for a ninth generator.
pub fn hg_subgroup_predicate(
    from: &[u32],
    handles: &[u32],
    count: u8,
    members: &[u8],
    table: &mut [u32],
    start: usize,
    work: &mut [u32],
    inn: &mut [u32],
    outw: &mut [u32],
    room: u32,
    out: &mut [u32],
) -> u32
    ensures { telling result out.new (table.new ∷ work.new ∷ inn.new ∷ outw.new ∷ []) ≡ in_out 6 out.old (table.old ∷ work.old ∷ inn.old ∷ outw.old ∷ []) (subgroup_told (from_predicate from.now (product_of handles.now count) members.now table.old start work.old inn.old outw.old room) out.old) }
{
    if out.len() < 6 {
        return 4;
    }
    let over = capi_handles::inner::product_of(handles, count);
    let m = subgroup::from_predicate(from, over, members, table, start, work, inn, outw, room);
    write_subgrouped(out, m)
}

// Answers the element of the overgroup that the subgroup's e is. Refuses in this order: 17 for a handle that does not fit or a short map, 14 for an
// element out of range, 15 for a side too large, 17 for a number in the map that is no element.
pub fn hg_subgroup_over(from: &[u32], table: &[u32], sub: &[u32], outw: &[u32], e: u32) -> u64
    ensures { result ≡ reached_code (to_over_answer (length from.now) (length table.now) (subgroup_from sub.now) outw.now (record { 0 = e })) }
{
    let o = outline_from(from, table, sub);
    capi_values::inner::reached_code(subgroup::inner::over_by(o, outw, GroupElementId(e)))
}

// Answers the element of the subgroup that the overgroup's x is, or 4,294,967,295 where it is not in it. Refuses as hg_subgroup_over does.
pub fn hg_subgroup_back(from: &[u32], table: &[u32], sub: &[u32], inn: &[u32], x: u32) -> u64
    ensures { result ≡ within_code (to_sub_answer (length from.now) (length table.now) (subgroup_from sub.now) inn.now (record { 0 = x })) }
{
    let o = outline_from(from, table, sub);
    within_code(subgroup::inner::back_by(o, inn, GroupElementId(x)))
}

// Answers the subgroup's generator g as an element of the overgroup. Refuses in this order: 17 for a handle that does not fit or a short map, 14 for
// a generator out of range, 15 for a side too large, 17 for a number read that is out of range.
pub fn hg_subgroup_generator(from: &[u32], table: &[u32], sub: &[u32], outw: &[u32], g: u8) -> u64
    ensures { result ≡ reached_code (generator_answer from.now table.now (subgroup_from sub.now) outw.now (record { 0 = g })) }
{
    let s = subgroup_from(sub);
    capi_values::inner::reached_code(subgroup::generator(from, table, s, outw, GeneratorId(g)))
}

// Answers how many generators the subgroup has, with those of the groups that were multiplied on. Refuses in this order: 17 for a handle that does
// not fit, 15 for too many factors or elements.
pub fn hg_subgroup_generators(from: &[u32], table: &[u32], sub: &[u32]) -> u64
    ensures { result ≡ counted_code (generator_count_answer (length from.now) (length table.now) (subgroup_from sub.now)) }
{
    let s = subgroup_from(sub);
    capi_values::inner::counted_code(subgroup::generator_count(from, table, s))
}

// Writes into out whether a subgroup can have a product's factors below it: then these go in front of those that it has below. Refuses in this order:
// 4 for an out shorter than 4, 17 for a handle that does not fit, 15 for more than 8 factors or too many elements on a side.
pub fn hg_subgroup_left(
    from: &[u32],
    table: &[u32],
    handles: &[u32],
    count: u8,
    sub: &[u32],
    out: &mut [u32],
) -> u32
    ensures { telling result out.new [] ≡ in_out 4 out.old [] (verdict_told (answer_of (left_product (length from.now) (length table.now) (product_of handles.now count) (subgroup_from sub.now))) out.old) }
{
    if out.len() < 4 {
        return 4;
    }
    let g = capi_handles::inner::product_of(handles, count);
    let s = subgroup_from(sub);
    let v = verdict_of(subgroup::product_left(from, table, g, s));
    capi_values::inner::write_verdict(out, v)
}

// Writes into out whether a subgroup can have a product's factors above it: then these go behind those that it has above. Refuses as hg_subgroup_left
// does.
pub fn hg_subgroup_right(
    from: &[u32],
    table: &[u32],
    sub: &[u32],
    handles: &[u32],
    count: u8,
    out: &mut [u32],
) -> u32
    ensures { telling result out.new [] ≡ in_out 4 out.old [] (verdict_told (answer_of (right_product (length from.now) (length table.now) (subgroup_from sub.now) (product_of handles.now count))) out.old) }
{
    if out.len() < 4 {
        return 4;
    }
    let g = capi_handles::inner::product_of(handles, count);
    let s = subgroup_from(sub);
    let v = verdict_of(subgroup::product_right(from, table, s, g));
    capi_values::inner::write_verdict(out, v)
}
