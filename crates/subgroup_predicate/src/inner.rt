// The work of the call, done once the overgroup's handles are known to fit and its elements to be at most 65,535.
ghost use Rattle.std.specs.Prelude.{◌≡◌, true, ◌≤◌, length, get_or};
ghost use Rattle.group_handles.specs.Handles.{handles, elements_of, all_fit};
ghost use Rattle.group_digits.specs.Digits.{composes};
ghost use Rattle.subgroup_build.specs.Lent.{Subgrouping, maps_right};
ghost use Rattle.subgroup_predicate_choices.specs.Choices.{ChosenOfEight, picked_of};
ghost use Rattle.subgroup_predicate.specs.Predicate.{predicate_in, admits_over, told_into};

use egg::Refusal;
use group_handles::Group;
use subgroup_build::Subgroup;
use subgroup_predicate_choices::inner::Picks;

// Refuses in this order: 17 for a handle that does not fit, 15 for an overgroup too large to number.
pub fn admit_over(from: &[u32], over: Group) -> Result<(), Refusal>
    ensures { result ≡ admits_over (length from.now) over }
{
    if !group_handles::inner::all_fit(from, over) {
        return Err(Refusal::Unreadable);
    }
    if !subgroup_build::inner::small_enough(over) {
        return Err(Refusal::TooLarge);
    }
    Ok(())
}

// Starts from the subgroup of one element and chooses generators as the bytes tell.
fn told_in(
    t: &mut [u32],
    w: &mut [u32],
    inn: &mut [u32],
    outw: &mut [u32],
    from: &[u32],
    over: Group,
    members: &[u8],
    room: u32,
) -> Picks
    requires { ((all_fit (length from.now) (handles over) ≡ true) × (elements_of (handles over) ≤ 4294967295)) × (length inn.old ≤ 65535) }
    ensures { (picked_of result t.new w.new inn.new outw.new ≡ predicate_in (length t.old) w.old (composes from.now (handles over)) room (length inn.old) (length outw.old) (λ y. get_or members.now y 0)) × ChosenOfEight result }
{
    let made = subgroup_build::inner::generated_in(t, w, inn, outw, from, over, &[], 0, room);
    let p = Picks {
        chosen: [0; 8],
        generators: 0,
        made,
    };
    subgroup_predicate_choices::inner::choose_all(t, w, inn, outw, from, over, members, room, p)
}

// Does the same with all builds in the front of the work, because each build clears what it is lent: the whole work is cleared once, at the end.
fn told_in_front(
    t: &mut [u32],
    w: &mut [u32],
    inn: &mut [u32],
    outw: &mut [u32],
    from: &[u32],
    over: Group,
    members: &[u8],
    room: u32,
) -> Picks
    requires { (((all_fit (length from.now) (handles over) ≡ true) × (elements_of (handles over) ≤ 4294967295)) × (length inn.old ≤ 65535)) × ((1 ≤ room) × (room ≤ length w.old)) }
    ensures { (picked_of result t.new w.new inn.new outw.new ≡ predicate_in (length t.old) w.old (composes from.now (handles over)) room (length inn.old) (length outw.old) (λ y. get_or members.now y 0)) × ChosenOfEight result }
{
    let front = room as usize;
    let p = told_in(t, &mut w[..front], inn, outw, from, over, members, room);
    egg::inner::clear(w);
    p
}

// Builds in the parts of the four buffers that the builds need, which are long enough.
fn told_at(
    from: &[u32],
    over: Group,
    members: &[u8],
    table: &mut [u32],
    start: usize,
    work: &mut [u32],
    inn: &mut [u32],
    outw: &mut [u32],
    room: u32,
) -> Result<Subgroup, Refusal>
    requires { ((all_fit (length from.now) (handles over) ≡ true) × (elements_of (handles over) ≤ 65535)) × ((elements_of (handles over) ≤ length members.now) × (maps_right (length table.old) start (length work.old) (length inn.old) (length outw.old) room 8 (elements_of (handles over)) ≡ true)) }
    ensures { Subgrouping.subgrouping result table.new work.new inn.new outw.new ≡ told_into from.now over members.now table.old start work.old inn.old outw.old room }
{
    let m = group_handles::inner::elements_of(over) as usize;
    let r = room as usize;
    let end = build_lending::inner::stretch_end(table.len(), start, room, 8);
    let need = build_lending::inner::work_need(8, room);
    let p = told_in_front(
        &mut table[start..end],
        &mut work[..need],
        &mut inn[..m],
        &mut outw[..r],
        from,
        over,
        members,
        room,
    );
    subgroup_build::inner::subgroup_of(
        over,
        build_lending::inner::made(start, room, p.generators, p.made),
    )
}

// Refuses with 4 a room out of range or a short buffer, or a predicate of too few bytes; else builds.
pub fn told_into(
    from: &[u32],
    over: Group,
    members: &[u8],
    table: &mut [u32],
    start: usize,
    work: &mut [u32],
    inn: &mut [u32],
    outw: &mut [u32],
    room: u32,
) -> Result<Subgroup, Refusal>
    requires { (all_fit (length from.now) (handles over) ≡ true) × (elements_of (handles over) ≤ 65535) }
    ensures { Subgrouping.subgrouping result table.new work.new inn.new outw.new ≡ told_into from.now over members.now table.old start work.old inn.old outw.old room }
{
    let m = group_handles::inner::elements_of(over);
    if !subgroup_build::inner::maps_right(
        table.len(),
        start,
        work.len(),
        inn.len(),
        outw.len(),
        room,
        8,
        m,
    ) {
        return Err(Refusal::TooShort);
    }
    if (members.len() as u64) < m {
        return Err(Refusal::TooShort);
    }
    told_at(from, over, members, table, start, work, inn, outw, room)
}
