// The work of a build by generators, done once the overgroup's handles are known to fit and its elements to be at most 65,535.
ghost use Rattle.std.specs.Prelude.{◌≡◌, true, ◌≤◌, length};
ghost use Rattle.build_lending.specs.Finish.{Built};
ghost use Rattle.group_handles.specs.Handles.{handles, elements_of, all_fit};
ghost use Rattle.build_numbering.specs.Build.{Renumbering, renumber_in};
ghost use Rattle.subgroup_build.specs.Lent.{subgroup_of, Subgrouping, maps_right};
ghost use Rattle.subgroup_rows.specs.Rows.{product_by};
ghost use Rattle.subgroup_build.specs.Generated.{entries_right, small_enough, admits_generators, generated_into};

use super::Subgroup;
use egg::{Factor, GroupElementId, Refusal};
use group_handles::Group;

// Refuses with 14 the first entry that is no element.
fn entries_right(over: Group, gens: &[u32]) -> Result<(), Refusal>
    ensures { result ≡ entries_right (elements_of (handles over)) gens.now }
{
    let m = group_handles::inner::elements_of(over);
    for i in 0..gens.len() {
        let x = egg::inner::get(gens, i);
        if m <= (x as u64) {
            return Err(Refusal::ArgumentOutside(factor_walk::inner::shown(i)));
        }
    }
    Ok(())
}

// Whether the overgroup is within the limits of a product, and small enough to number.
pub fn small_enough(over: Group) -> bool
    ensures { result ≡ small_enough over }
{
    if !group_handles::inner::limited(over) {
        return false;
    }
    group_handles::inner::elements_of(over) <= 65535
}

// Refuses in this order: 17 for a handle that does not fit, 14 for the first entry that is no element, 15 for an overgroup too large to number.
pub fn admit_generators(from: &[u32], over: Group, gens: &[u32]) -> Result<(), Refusal>
    ensures { result ≡ admits_generators (length from.now) over gens.now }
{
    if !group_handles::inner::all_fit(from, over) {
        return Err(Refusal::Unreadable);
    }
    entries_right(over, gens)?;
    if !small_enough(over) {
        return Err(Refusal::TooLarge);
    }
    Ok(())
}

// Does the whole build, in its stretches.
pub fn generated_in(
    t: &mut [u32],
    w: &mut [u32],
    inn: &mut [u32],
    outw: &mut [u32],
    from: &[u32],
    over: Group,
    gens: &[u32],
    n: u8,
    room: u32,
) -> Result<u32, Refusal>
    requires { (all_fit (length from.now) (handles over) ≡ true) × (elements_of (handles over) ≤ 4294967295) }
    ensures { Renumbering.renumbering (Built.built result t.new w.new) inn.new outw.new ≡ renumber_in (length t.old) w.old (product_by from.now (handles over) gens.now) n room (length inn.old) (length outw.old) 0 }
{
    egg::inner::clear(t);
    build_numbering::inner::start(inn, outw, GroupElementId(0));
    let read = subgroup_rows::inner::rows_of(t, inn, outw, from, over, gens, n, room);
    let made = build_lending::inner::finish(t, w, n, read);
    build_numbering::inner::settle(inn, outw, made)
}

// The subgroup's value for a factor that was made, or the refusal.
pub fn subgroup_of(over: Group, made: Result<Factor, Refusal>) -> Result<Subgroup, Refusal>
    ensures { result ≡ subgroup_of over made }
{
    let factor = made?;
    let none = group_handles::trivial();
    Ok(Subgroup {
        below: none,
        factor,
        over,
        above: none,
    })
}

// True where refusal 4 is not due: the room is within its limits, and neither table, work nor a map is short.
pub fn maps_right(
    table: usize,
    start: usize,
    work: usize,
    inn: usize,
    outw: usize,
    room: u32,
    n: u8,
    m: u64,
) -> bool
    ensures { result ≡ maps_right table start work inn outw room n m }
{
    if !build_lending::inner::lent_right(table, start, work, room, n) {
        return false;
    }
    if (inn as u64) < m {
        return false;
    }
    (room as usize) <= outw
}

// Builds in the parts of the four buffers that the build needs, which are long enough.
fn generated_at(
    from: &[u32],
    over: Group,
    gens: &[u32],
    table: &mut [u32],
    start: usize,
    work: &mut [u32],
    inn: &mut [u32],
    outw: &mut [u32],
    room: u32,
) -> Result<Subgroup, Refusal>
    requires { ((all_fit (length from.now) (handles over) ≡ true) × (elements_of (handles over) ≤ 65535)) × ((length gens.now ≤ 8) × (maps_right (length table.old) start (length work.old) (length inn.old) (length outw.old) room (length gens.now) (elements_of (handles over)) ≡ true)) }
    ensures { Subgrouping.subgrouping result table.new work.new inn.new outw.new ≡ generated_into from.now over gens.now table.old start work.old inn.old outw.old room }
{
    let n = gens.len() as u8;
    let m = group_handles::inner::elements_of(over) as usize;
    let r = room as usize;
    let end = build_lending::inner::stretch_end(table.len(), start, room, n);
    let need = build_lending::inner::work_need(n, room);
    let count = generated_in(
        &mut table[start..end],
        &mut work[..need],
        &mut inn[..m],
        &mut outw[..r],
        from,
        over,
        gens,
        n,
        room,
    );
    subgroup_of(over, build_lending::inner::made(start, room, n, count))
}

// Refuses with 1 more than 8 generators, then with 4 a room out of range or a short buffer; else builds.
pub fn generated_into(
    from: &[u32],
    over: Group,
    gens: &[u32],
    table: &mut [u32],
    start: usize,
    work: &mut [u32],
    inn: &mut [u32],
    outw: &mut [u32],
    room: u32,
) -> Result<Subgroup, Refusal>
    requires { (all_fit (length from.now) (handles over) ≡ true) × (elements_of (handles over) ≤ 65535) }
    ensures { Subgrouping.subgrouping result table.new work.new inn.new outw.new ≡ generated_into from.now over gens.now table.old start work.old inn.old outw.old room }
{
    let k = gens.len();
    if 8 < k {
        return Err(Refusal::TooManyGenerators(factor_walk::inner::shown(k)));
    }
    let m = group_handles::inner::elements_of(over);
    if !maps_right(
        table.len(),
        start,
        work.len(),
        inn.len(),
        outw.len(),
        room,
        k as u8,
        m,
    ) {
        return Err(Refusal::TooShort);
    }
    generated_at(from, over, gens, table, start, work, inn, outw, room)
}
