// The work on a subgroup's two sides: the overgroup below · over · above, the subgroup below · factor · above.
ghost use Rattle.std.specs.Prelude.{◌≡◌, true, ◌*◌, ◌<◌, ◌≤◌, length};
ghost use Rattle.group_handles.specs.Handles.{handles, elements_of, generators_of, capped};
ghost use Rattle.egg.specs.declared.GroupElementId.{GroupElementId};
ghost use Rattle.subgroup_sides.specs.Sides.{sub_side, sides_fit, few_factors, limited_by, sides_limited, put_left, put_right, joinable, if_limited, multiplied, few_of};
ghost use Rattle.subgroup_sides.specs.Generators.{scaled, side_generator};

use egg::{GeneratorId, GroupElementId, Refusal};
use group_handles::Group;
use subgroup_build::Subgroup;

// Multiplies as far as 32 bits can tell: 4,294,967,296 stands for everything above them. In `times` of group_handles the second number has 32 bits;
// here it may be that 4,294,967,296.
fn times(p: u64, q: u64) -> u64
    requires { (p ≤ 4294967296) × (q ≤ 4294967296) }
    ensures { result ≡ capped (p * q) }
{
    if q <= 4294967295 {
        return group_handles::inner::times(p, q as u32);
    }
    if p == 0 { 0 } else { 4294967296 }
}

// How many elements a product has that has m elements between what is below and above.
pub fn measure(below: u64, m: u64, above: u64) -> u64
    requires { (below ≤ 4294967296) × ((m ≤ 4294967296) × (above ≤ 4294967296)) }
    ensures { result ≡ capped (below * capped (m * above)) }
{
    times(below, times(m, above))
}

// Whether every handle fits its buffer.
pub fn sides_fit(from: &[u32], table: &[u32], s: Subgroup) -> bool
    ensures { result ≡ sides_fit (length from.now) (length table.now) s }
{
    if !egg::fits(table, s.factor) {
        return false;
    }
    if !group_handles::inner::all_fit(from, s.below) {
        return false;
    }
    if !group_handles::inner::all_fit(from, s.over) {
        return false;
    }
    group_handles::inner::all_fit(from, s.above)
}

// Whether both sides have at most 8 factors, by how many are below, over and above.
pub fn few_of(below: u8, over: u8, above: u8) -> bool
    ensures { result ≡ few_of below over above }
{
    if 8 < below {
        return false;
    }
    if 8 < over {
        return false;
    }
    if 8 < above {
        return false;
    }
    let k = (below as u32) + (above as u32);
    if 8 < k + (over as u32) {
        return false;
    }
    k < 8
}

// Whether both sides have at most 8 factors.
pub fn few_factors(s: Subgroup) -> bool
    ensures { result ≡ few_factors s }
{
    few_of(s.below.count, s.over.count, s.above.count)
}

// Whether both sides have at most 8 factors, which is known, and 4,294,967,295 elements, by how many there are below, in the subgroup's own factor, in
// those that it stands for and above.
pub fn limited_by(few: bool, below: u64, within: u64, over: u64, above: u64) -> bool
    requires { (below ≤ 4294967296) × ((within ≤ 4294967296) × ((over ≤ 4294967296) × (above ≤ 4294967296))) }
    ensures { result ≡ limited_by few below within over above }
{
    if !few {
        return false;
    }
    if 4294967295 < measure(below, over, above) {
        return false;
    }
    measure(below, within, above) <= 4294967295
}

// The same for a subgroup.
pub fn sides_limited(s: Subgroup) -> bool
    ensures { result ≡ sides_limited s }
{
    let few = few_factors(s);
    let low = group_handles::inner::elements_of(s.below);
    let middle = group_handles::inner::elements_of(s.over);
    let high = group_handles::inner::elements_of(s.above);
    limited_by(few, low, s.factor.elements as u64, middle, high)
}

// Whether both groups have at most 8 factors, and both together too; else 15 is due.
fn joinable(g: Group, h: Group) -> bool
    ensures { result ≡ joinable g h }
{
    if 8 < g.count {
        return false;
    }
    if 8 < h.count {
        return false;
    }
    group_handles::inner::listed(g) + group_handles::inner::listed(h) <= 8
}

// The subgroup where it is within its limits, else 15.
fn if_limited(s: Subgroup) -> Result<Subgroup, Refusal>
    ensures { result ≡ if_limited s }
{
    if !sides_limited(s) {
        return Err(Refusal::TooLarge);
    }
    Ok(s)
}

// The subgroup with g multiplied on at the left, or 15.
pub fn left_of(g: Group, s: Subgroup) -> Result<Subgroup, Refusal>
    ensures { result ≡ multiplied g s.below (put_left g s) }
{
    if !joinable(g, s.below) {
        return Err(Refusal::TooLarge);
    }
    let below = group_handles::inner::joined(g, s.below);
    if_limited(Subgroup { below, ..s })
}

// The subgroup with g multiplied on at the right, or 15.
pub fn right_of(s: Subgroup, g: Group) -> Result<Subgroup, Refusal>
    ensures { result ≡ multiplied s.above g (put_right s g) }
{
    if !joinable(s.above, g) {
        return Err(Refusal::TooLarge);
    }
    let above = group_handles::inner::joined(s.above, g);
    if_limited(Subgroup { above, ..s })
}

// How many generators the subgroup has.
pub fn sub_generators(s: Subgroup) -> u32
    ensures { result ≡ generators_of (sub_side s) }
{
    let low = group_handles::inner::generators_of(s.below);
    let high = group_handles::inner::generators_of(s.above);
    low + ((s.factor.generators as u32) + high)
}

// The number k·y for an element y that was reached: y's number in a product that has k elements below its factors.
fn scaled(r: Result<GroupElementId, Refusal>, k: u64) -> Result<GroupElementId, Refusal>
    requires { (y : GroupElementId) → r ≡ Ok y → k * y.0 < 4294967296 }
    ensures { result ≡ scaled k r }
{
    let y = r?;
    Ok(GroupElementId((k * (y.0 as u64)) as u32))
}

// The generator g as an element of the subgroup's product.
pub fn side_generator(
    from: &[u32],
    table: &[u32],
    s: Subgroup,
    g: GeneratorId,
) -> Result<GroupElementId, Refusal>
    requires { (sides_fit (length from.now) (length table.now) s ≡ true) × (sides_limited s ≡ true) }
    ensures { result ≡ side_generator from.now table.now s g.0 }
{
    let factor = s.factor;
    let k = group_handles::inner::generators_of(s.below);
    let all = g.0 as u32;
    if all < k {
        return group_digits::inner::step_in(from, s.below, GroupElementId(0), g);
    }
    let left = (all - k) as u8;
    let stride = group_handles::inner::elements_of(s.below);
    if left < factor.generators {
        let part = egg::inner::part(table, factor);
        let within = egg::inner::next(
            part,
            factor.generators,
            factor.elements,
            GroupElementId(0),
            GeneratorId(left),
        );
        return scaled(within, stride);
    }
    let high = group_digits::inner::step_in(
        from,
        s.above,
        GroupElementId(0),
        GeneratorId(left - factor.generators),
    );
    scaled(high, stride * (factor.elements as u64))
}
