// The calls on subgroups of a product, from subgroup_action.rs without its actions. A subgroup is numbered in order of first appearance, with two
// lent maps: `inn` from the overgroup's elements to the subgroup's, or to 4,294,967,295 for "not in the subgroup", and `outw` from the subgroup's to
// the overgroup's. Every call checks, in this order: 17 for each handle, 14 for its arguments, 15 for a product too large, 1 and 4 for what a build
// is given and lent, and then 17 for each number that it reads.
#![tactic(auto)]

ghost use Rattle.std.specs.Prelude.{◌≡◌, length};
ghost use Rattle.subgroup_build.specs.Lent.{Subgrouping};
ghost use Rattle.subgroup_build.specs.Generated.{from_generators};
ghost use Rattle.subgroup_sides.specs.Sides.{left_product, right_product};
ghost use Rattle.subgroup.specs.Questions.{to_over_answer, to_sub_answer, generator_answer, generator_count_answer, overgroup_answer};
ghost use Rattle.subgroup.specs.Trivial.{trivial_subgroup};

use egg::{GeneratorId, GroupElementId, Refusal};
use group_handles::Group;
pub use subgroup_build::Subgroup;
pub use subgroup_predicate::from_predicate;

pub mod inner;

// Builds the subgroup that the elements `gens` of a product in `from` generate, into the stretch of `table` that starts at `start`, and fills its two
// maps. Refuses in this order: 17 for a handle that does not fit, 14 for the first entry that is no element, 15 for an overgroup too large to number,
// 1 for more than 8 generators, 4 for a room out of range or a short buffer; then as any build does, and with 17 a number read that is out of range.
pub fn from_generators(
    from: &[u32],
    over: Group,
    gens: &[u32],
    table: &mut [u32],
    start: usize,
    work: &mut [u32],
    inn: &mut [u32],
    outw: &mut [u32],
    room: u32,
) -> Result<Subgroup, Refusal>
    ensures { Subgrouping.subgrouping result table.new work.new inn.new outw.new ≡ from_generators from.now over gens.now table.old start work.old inn.old outw.old room }
{
    subgroup_build::inner::admit_generators(from, over, gens)?;
    subgroup_build::inner::generated_into(from, over, gens, table, start, work, inn, outw, room)
}

// Makes the trivial subgroup, of the group of one element: it needs four entries of table, none of work, and one place in each map. Refuses with 4
// where one of these is short.
pub fn trivial(
    table: &mut [u32],
    start: usize,
    work: &mut [u32],
    inn: &mut [u32],
    outw: &mut [u32],
) -> Result<Subgroup, Refusal>
    ensures { Subgrouping.subgrouping result table.new work.new inn.new outw.new ≡ trivial_subgroup table.old start work.old inn.old outw.old }
{
    let over = group_handles::trivial();
    from_generators(&[], over, &[], table, start, work, inn, outw, 1)
}

// Answers the subgroup of g · overgroup that is g · subgroup. Refuses in this order: 17 for a handle that does not fit, 15 for more than 8 factors or
// too many elements on a side.
pub fn product_left(from: &[u32], table: &[u32], g: Group, s: Subgroup) -> Result<Subgroup, Refusal>
    ensures { result ≡ left_product (length from.now) (length table.now) g s }
{
    if !subgroup_sides::inner::sides_fit(from, table, s) {
        return Err(Refusal::Unreadable);
    }
    if !group_handles::inner::all_fit(from, g) {
        return Err(Refusal::Unreadable);
    }
    subgroup_sides::inner::left_of(g, s)
}

// Answers the subgroup of overgroup · g that is subgroup · g. Refuses as `product_left` does.
pub fn product_right(
    from: &[u32],
    table: &[u32],
    s: Subgroup,
    g: Group,
) -> Result<Subgroup, Refusal>
    ensures { result ≡ right_product (length from.now) (length table.now) s g }
{
    if !subgroup_sides::inner::sides_fit(from, table, s) {
        return Err(Refusal::Unreadable);
    }
    if !group_handles::inner::all_fit(from, g) {
        return Err(Refusal::Unreadable);
    }
    subgroup_sides::inner::right_of(s, g)
}

// Answers the element of the overgroup that the subgroup's e is. Refuses in this order: 17 for a handle that does not fit or a short map, 14 for an
// element out of range, 15 for a side too large, 17 for a number in the map that is no element.
pub fn to_overgroup(
    from: &[u32],
    table: &[u32],
    s: Subgroup,
    outw: &[u32],
    e: GroupElementId,
) -> Result<GroupElementId, Refusal>
    ensures { result ≡ to_over_answer (length from.now) (length table.now) s outw.now e }
{
    inner::over_by(inner::outlined(from, table, s), outw, e)
}

// Answers the element of the subgroup that the overgroup's x is, or `None` where it is outside. Refuses as `to_overgroup` does.
pub fn to_subgroup(
    from: &[u32],
    table: &[u32],
    s: Subgroup,
    inn: &[u32],
    x: GroupElementId,
) -> Result<Option<GroupElementId>, Refusal>
    ensures { result ≡ to_sub_answer (length from.now) (length table.now) s inn.now x }
{
    inner::back_by(inner::outlined(from, table, s), inn, x)
}

// Answers the generator g of the subgroup as an element of the overgroup. Refuses in this order: 17 for a handle that does not fit or a short map, 14
// for a generator out of range, 15 for a side too large, 17 for a number read that is out of range.
pub fn generator(
    from: &[u32],
    table: &[u32],
    s: Subgroup,
    outw: &[u32],
    g: GeneratorId,
) -> Result<GroupElementId, Refusal>
    ensures { result ≡ generator_answer from.now table.now s outw.now g }
{
    let n = s.factor.elements as u64;
    let k = subgroup_sides::inner::sub_generators(s) as u64;
    let o = inner::outlined(from, table, s);
    inner::admit(o, outw.len(), n, g.0 as u32, k)?;
    inner::generator_over(from, table, s, o, outw, g)
}

// Answers how many generators the subgroup has, with those of the groups that were multiplied on. Refuses as `overgroup` does.
pub fn generator_count(from: &[u32], table: &[u32], s: Subgroup) -> Result<u32, Refusal>
    ensures { result ≡ generator_count_answer (length from.now) (length table.now) s }
{
    inner::admit_handles(from, table, s)?;
    Ok(subgroup_sides::inner::sub_generators(s))
}

// Hands back the group that this is a subgroup of, with the groups that were multiplied on. Refuses in this order: 17 for a handle that does not fit,
// 15 for a side too large.
pub fn overgroup(from: &[u32], table: &[u32], s: Subgroup) -> Result<Group, Refusal>
    ensures { result ≡ overgroup_answer (length from.now) (length table.now) s }
{
    inner::admit_handles(from, table, s)?;
    Ok(inner::over_group(s))
}
