// The work of the calls, done once the subgroup's handles are known to fit.
ghost use Rattle.std.specs.Prelude.{◌≡◌, true, ◌*◌, ◌<◌, ◌≤◌, length};
ghost use Rattle.egg.specs.Answers.{on_reached};
ghost use Rattle.group_handles.specs.Handles.{group_of};
ghost use Rattle.subgroup.specs.Indices.{factor_indices, unfactor_indices, with_within};
ghost use Rattle.subgroup_sides.specs.Sides.{over_side, sides_fit, sides_limited};
ghost use Rattle.subgroup.specs.Outline.{outline_by, outline_of, Measured, outline_limited, admits_outline, over_by_outline, back_by_outline};
ghost use Rattle.subgroup_sides.specs.Generators.{side_generator};
ghost use Rattle.subgroup.specs.Questions.{carried_over, carried_by, carried_back_by, admits_handles};

use egg::{GeneratorId, GroupElementId, Refusal};
use group_handles::Group;
use group_handles::inner::Seen;
use subgroup_build::Subgroup;

// What one look at a subgroup's handles shows: whether each fits its buffer, whether either side has at most 8 factors, and how many elements there
// are in the factors below, in the subgroup's own, in those that it stands for and in those above, as far as 32 bits can tell. The questions need no
// more than these numbers; a `Subgroup` is 620 bytes, which every function that is not put in line copies.
#[derive(Clone, Copy)]
pub struct Outline {
    pub fit: bool,
    pub few: bool,
    pub below: u64,
    pub within: u64,
    pub over: u64,
    pub above: u64,
}

// Puts an outline together from what was seen of the factors below, over and above.
pub fn outline_by(
    fits: bool,
    few: bool,
    within: u32,
    below: Seen,
    over: Seen,
    above: Seen,
) -> Outline
    ensures { result ≡ outline_by fits few within below over above }
{
    let high = group_handles::inner::both(over.fit, above.fit);
    let fit = group_handles::inner::both(fits, group_handles::inner::both(below.fit, high));
    Outline {
        fit,
        few,
        below: below.elements,
        within: within as u64,
        over: over.elements,
        above: above.elements,
    }
}

// Looks at all handles of a subgroup.
pub fn outlined(from: &[u32], table: &[u32], s: Subgroup) -> Outline
    ensures { result ≡ outline_of (length from.now) (length table.now) s }
{
    let fits = egg::fits(table, s.factor);
    let few = subgroup_sides::inner::few_factors(s);
    let low = group_handles::inner::look(from, s.below);
    let middle = group_handles::inner::look(from, s.over);
    let high = group_handles::inner::look(from, s.above);
    outline_by(fits, few, s.factor.elements, low, middle, high)
}

// Whether both sides have at most 8 factors and 4,294,967,295 elements.
fn limited(o: Outline) -> bool
    requires { Measured o }
    ensures { result ≡ outline_limited o }
{
    subgroup_sides::inner::limited_by(o.few, o.below, o.within, o.over, o.above)
}

// Refuses in this order: 17 for a handle that does not fit or a map of fewer than `need` places, 14 for an argument a that is not below la, 15 for a
// side too large.
pub fn admit(o: Outline, map: usize, need: u64, a: u32, la: u64) -> Result<(), Refusal>
    requires { Measured o }
    ensures { result ≡ admits_outline o map need a la }
{
    if !o.fit {
        return Err(Refusal::Unreadable);
    }
    if (map as u64) < need {
        return Err(Refusal::Unreadable);
    }
    if la <= (a as u64) {
        return Err(Refusal::ArgumentOutside(0));
    }
    if !limited(o) {
        return Err(Refusal::TooLarge);
    }
    Ok(())
}

// The element x with w for its part within. The factors there have n elements, and those that take their place have m.
fn replaced(x: GroupElementId, stride: u64, n: u64, w: GroupElementId, m: u64) -> GroupElementId
    requires { (1 ≤ stride) × ((1 ≤ n) × (unfactor_indices (with_within (factor_indices x.0 stride n) w.0) stride m < 4294967296)) }
    ensures { result.0 ≡ unfactor_indices (with_within (factor_indices x.0 stride n) w.0) stride m }
{
    let y = x.0 as u64;
    GroupElementId((((y / stride / n) * m + (w.0 as u64)) * stride + y % stride) as u32)
}

// Answers what the subgroup's e is in the overgroup.
pub fn carry_over(outw: &[u32], o: Outline, e: GroupElementId) -> Result<GroupElementId, Refusal>
    requires { (e.0 < o.below * (o.within * o.above)) × ((o.below * (o.within * o.above) ≤ 4294967295) × (o.below * (o.over * o.above) ≤ 4294967295)) }
    ensures { result ≡ carried_by o.below o.over o.within outw.now e.0 }
{
    let stride = o.below;
    let m = o.over;
    let n = o.within;
    let x = e.0 as u64;
    let w = egg::inner::get(outw, (x / stride % n) as usize);
    if m <= (w as u64) {
        return Err(Refusal::Unreadable);
    }
    Ok(replaced(e, stride, n, GroupElementId(w), m))
}

// Answers what the overgroup's x is in the subgroup.
pub fn carry_back(
    inn: &[u32],
    o: Outline,
    x: GroupElementId,
) -> Result<Option<GroupElementId>, Refusal>
    requires { (x.0 < o.below * (o.over * o.above)) × ((o.below * (o.within * o.above) ≤ 4294967295) × (o.below * (o.over * o.above) ≤ 4294967295)) }
    ensures { result ≡ carried_back_by o.below o.over o.within inn.now x.0 }
{
    let stride = o.below;
    let m = o.over;
    let n = o.within;
    let y = x.0 as u64;
    let w = egg::inner::get(inn, (y / stride % m) as usize);
    if w == 4294967295 {
        return Ok(None);
    }
    if n <= (w as u64) {
        return Err(Refusal::Unreadable);
    }
    Ok(Some(replaced(x, stride, m, GroupElementId(w), n)))
}

// Does `to_overgroup` by the outline.
pub fn over_by(o: Outline, outw: &[u32], e: GroupElementId) -> Result<GroupElementId, Refusal>
    requires { Measured o }
    ensures { result ≡ over_by_outline o outw.now e.0 }
{
    let n = subgroup_sides::inner::measure(o.below, o.within, o.above);
    admit(o, outw.len(), o.within, e.0, n)?;
    carry_over(outw, o, e)
}

// Does `to_subgroup` by the outline.
pub fn back_by(
    o: Outline,
    inn: &[u32],
    x: GroupElementId,
) -> Result<Option<GroupElementId>, Refusal>
    requires { Measured o }
    ensures { result ≡ back_by_outline o inn.now x.0 }
{
    let m = subgroup_sides::inner::measure(o.below, o.over, o.above);
    admit(o, inn.len(), o.over, x.0, m)?;
    carry_back(inn, o, x)
}

// Answers the generator g of the subgroup as an element of the overgroup.
pub fn generator_over(
    from: &[u32],
    table: &[u32],
    s: Subgroup,
    o: Outline,
    outw: &[u32],
    g: GeneratorId,
) -> Result<GroupElementId, Refusal>
    requires { ((sides_fit (length from.now) (length table.now) s ≡ true) × (sides_limited s ≡ true)) × (o ≡ outline_of (length from.now) (length table.now) s) }
    ensures { result ≡ on_reached (side_generator from.now table.now s g.0) (λ e. carried_over s outw.now e) }
{
    let e = subgroup_sides::inner::side_generator(from, table, s, g)?;
    carry_over(outw, o, e)
}

// 17 in the handles, then 15.
pub fn admit_handles(from: &[u32], table: &[u32], s: Subgroup) -> Result<(), Refusal>
    ensures { result ≡ admits_handles (length from.now) (length table.now) s }
{
    if !subgroup_sides::inner::sides_fit(from, table, s) {
        return Err(Refusal::Unreadable);
    }
    if !subgroup_sides::inner::sides_limited(s) {
        return Err(Refusal::TooLarge);
    }
    Ok(())
}

// The factors below, over and above as one product.
pub fn over_group(s: Subgroup) -> Group
    requires { sides_limited s ≡ true }
    ensures { result ≡ group_of (over_side s) }
{
    let high = group_handles::inner::joined(s.over, s.above);
    group_handles::inner::joined(s.below, high)
}
