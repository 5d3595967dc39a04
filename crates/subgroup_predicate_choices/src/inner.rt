// Goes through the elements of the overgroup, one by one: it chooses which become generators, and builds the subgroup that they generate anew for
// each.
ghost use Rattle.std.specs.Prelude.{◌≡◌, true, ◌≤◌, length, get_or, take};
ghost use Rattle.build_lending.specs.Finish.{Built};
ghost use Rattle.group_handles.specs.Handles.{handles, elements_of, all_fit};
ghost use Rattle.group_digits.specs.Digits.{composes};
ghost use Rattle.build_numbering.specs.Build.{Renumbering};
ghost use Rattle.subgroup_predicate_choices.specs.Choices.{is_new_member, ChosenOfEight, LastBuilt, ninth_of, chooses, again_in, picked_of};

use egg::{GroupElementId, Refusal};
use group_handles::Group;

// The elements that a predicate has chosen so far, the first `generators` of eight, and how their build ended.
#[derive(Clone, Copy)]
pub struct Picks {
    pub chosen: [u32; 8],
    pub generators: u8,
    pub made: Result<u32, Refusal>,
}

// Whether x is a member that has no number yet.
fn is_new(inn: &[u32], members: &[u8], x: GroupElementId) -> bool
    ensures { result ≡ is_new_member inn.now (λ y. get_or members.now y 0) x.0 }
{
    if egg::inner::get(inn, x.0 as usize) != 4294967295 {
        return false;
    }
    egg::inner::byte(members, x.0 as usize) != 0
}

// Refuses a ninth generator with 15; all that was built is zero again.
fn ninth(t: &mut [u32], w: &mut [u32], inn: &mut [u32], outw: &mut [u32], p: Picks) -> Picks
    ensures { (picked_of result t.new w.new inn.new outw.new ≡ ninth_of p t.old w.old inn.old outw.old) × ((result.generators ≡ p.generators) × (result.chosen ≡ p.chosen)) }
{
    egg::inner::clear(t);
    egg::inner::clear(w);
    egg::inner::clear(inn);
    egg::inner::clear(outw);
    Picks {
        made: Err(Refusal::TooLarge),
        ..p
    }
}

// Looks at one element of the overgroup, after a build that was not refused: where it is a new member, the subgroup is built again with one generator
// more.
fn choose(
    t: &mut [u32],
    w: &mut [u32],
    inn: &mut [u32],
    outw: &mut [u32],
    from: &[u32],
    over: Group,
    members: &[u8],
    room: u32,
    x: GroupElementId,
    p: Picks,
) -> Picks
    requires { ((all_fit (length from.now) (handles over) ≡ true) × (elements_of (handles over) ≤ 4294967295)) × (ChosenOfEight p × LastBuilt p) }
    ensures { (picked_of result t.new w.new inn.new outw.new ≡ chooses 1 (again_in (length t.old) (composes from.now (handles over)) room (length inn.old) (length outw.old)) (λ y. get_or members.now y 0) x.0 (take p.generators p.chosen) (Renumbering.renumbering (Built.built p.made t.old w.old) inn.old outw.old)) × ChosenOfEight result }
{
    if !is_new(&inn[..], members, x) {
        return p;
    }
    let k = p.generators as usize;
    let full = 8 <= k;
    if full {
        return ninth(t, w, inn, outw, p);
    }
    let mut chosen = p.chosen;
    chosen[k] = x.0;
    let n = k + 1;
    let made = subgroup_build::inner::generated_in(
        t,
        w,
        inn,
        outw,
        from,
        over,
        &chosen[..n],
        n as u8,
        room,
    );
    Picks {
        chosen,
        generators: n as u8,
        made,
    }
}

// Looks at the elements of the overgroup in order, to the last or to the first refusal.
pub fn choose_all(
    t: &mut [u32],
    w: &mut [u32],
    inn: &mut [u32],
    outw: &mut [u32],
    from: &[u32],
    over: Group,
    members: &[u8],
    room: u32,
    p: Picks,
) -> Picks
    requires { (((all_fit (length from.now) (handles over) ≡ true) × (elements_of (handles over) ≤ 4294967295)) × (length inn.old ≤ 65535)) × ChosenOfEight p }
    ensures { (picked_of result t.new w.new inn.new outw.new ≡ chooses (length inn.old) (again_in (length t.old) (composes from.now (handles over)) room (length inn.old) (length outw.old)) (λ y. get_or members.now y 0) 0 (take p.generators p.chosen) (Renumbering.renumbering (Built.built p.made t.old w.old) inn.old outw.old)) × ChosenOfEight result }
{
    let m = inn.len() as u32;
    let mut q = p;
    for x in 0..m {
        let Ok(_) = q.made else {
            return q;
        };
        q = choose(
            t,
            w,
            inn,
            outw,
            from,
            over,
            members,
            room,
            GroupElementId(x),
            q,
        );
    }
    q
}
