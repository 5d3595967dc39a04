// The inverses of a table's elements, and refusal 10 over them. Like the checks they are total on any contents.
ghost use Rattle.std.specs.Prelude.{◌≡◌, true, ◌<◌};
ghost use Rattle.egg.specs.Table.{back_of, last_of};
ghost use Rattle.build_checks_inverses.specs.Inverses.{invert_of, fill_inverses, inverses_right};
ghost use Rattle.build_checks_inverses.specs.Hints.{Packs, Follows, Hint, Hints, inverse_by, Hinted, CountedAgain};

use egg::{GroupElementId, Refusal};

// The step back from x by the last letter of the word of e, as `step_last` of egg.
fn back_last(t: &[u32], n: u8, x: GroupElementId, e: GroupElementId) -> GroupElementId
    ensures { result.0 ≡ back_of t.now n x.0 (last_of t.now n e.0) }
{
    egg::inner::element(egg::inner::cell(t, n, x, n, egg::inner::last(t, n, e)))
}

// The inverse of e: its reversed word through predecessors, from the identity (002).
fn invert(t: &[u32], n: u8, e: GroupElementId) -> GroupElementId
    ensures { result.0 ≡ invert_of t.now n e.0 }
{
    let mut x = 0;
    let mut at = e.0;
    for _ in 0..egg::inner::word_length(t, n, e) {
        x = back_last(t, n, GroupElementId(x), GroupElementId(at)).0;
        at = egg::inner::parent(t, n, GroupElementId(at));
    }
    GroupElementId(x)
}

// A hint for the inverse of an element: the element that its word without the first letter leads to, and that letter,
// in one number. 0 means that there is no hint.
pub fn pack(tail: GroupElementId, first: u32) -> u32
    ensures { first < 256 → Packs tail.0 first result }
{
    let h = (tail.0 as usize) * 256 + (first as usize) + 1;
    if h < 4294967296 { h as u32 } else { 0 }
}

// Answers true where the word of y, an earlier element than e, is that of `from` and the last letter of e, and one
// letter shorter than the word of e.
fn follows_on(t: &[u32], n: u8, from: GroupElementId, y: GroupElementId, e: GroupElementId) -> bool
    ensures { result ≡ true → Follows t.now n from.0 y.0 e.0 }
{
    if e.0 <= y.0 {
        return false;
    }
    if egg::inner::parent(t, n, y) != from.0 {
        return false;
    }
    if egg::inner::last(t, n, y) != egg::inner::last(t, n, e) {
        return false;
    }
    let long = egg::inner::word_length(t, n, y) as usize;
    if long != (egg::inner::word_length(t, n, from) as usize) + 1 {
        return false;
    }
    (egg::inner::word_length(t, n, e) as usize) == long + 1
}

// The hint of e, where the work has those of the elements before it. The word of e and its parent's word have the same
// first letter, and without it the word of e is the parent's and one letter.
fn hint_of(t: &[u32], w: &[u32], n: u8, e: GroupElementId) -> u32
    ensures { Hints t.now w.now n e.0 → Hint t.now n e.0 result }
{
    let g = egg::inner::last(t, n, e);
    if (n as u32) <= g {
        return 0;
    }
    if egg::inner::word_length(t, n, e) == 1 {
        if egg::inner::word_length(t, n, GroupElementId(0)) != 0 {
            return 0;
        }
        return pack(GroupElementId(0), g);
    }
    let p = egg::inner::parent(t, n, e);
    if e.0 <= p {
        return 0;
    }
    let h = egg::inner::get(w, p as usize);
    if h == 0 {
        return 0;
    }
    let from = GroupElementId((h - 1) / 256);
    let y = egg::inner::step_last(t, n, from, e);
    if !follows_on(t, n, from, y, e) {
        return 0;
    }
    pack(y, (h - 1) % 256)
}

// Writes the hints of all elements into the start of the work.
pub fn fill_hints(t: &[u32], w: &mut [u32], n: u8, count: u32)
    ensures { Hinted t.now w.old w.new n count }
{
    for e in 0..count {
        let h = hint_of(t, w, n, GroupElementId(e));
        egg::inner::put(w, e as usize, h as usize);
    }
}

// The inverse of e by its hint: one step back from an inverse that is written already, instead of a walk along the
// word.
fn inverse_by(t: &[u32], n: u8, e: GroupElementId, h: u32) -> GroupElementId
    ensures { result.0 ≡ inverse_by t.now n e.0 h }
{
    if h == 0 {
        return invert(t, n, e);
    }
    let tail = GroupElementId((h - 1) / 256);
    let x = egg::inner::get(t, egg::inner::inverse_at(n, tail));
    egg::inner::element(egg::inner::cell(t, n, GroupElementId(x), n, (h - 1) % 256))
}

// Writes the inverse of every element into the table, by the hints in the work.
pub fn fill_inverses(t: &mut [u32], w: &[u32], n: u8, count: u32)
    requires { Hints t.old w.now n count }
    ensures { t.new ≡ fill_inverses count t.old n 0 }
{
    for e in 0..count {
        let h = egg::inner::get(w, e as usize);
        let x = inverse_by(t, n, GroupElementId(e), h).0;
        egg::inner::put(t, egg::inner::inverse_at(n, GroupElementId(e)), x as usize);
    }
}

// Puts the arrivals back where the hints stood: they are n at each element, or 9 would have been given.
pub fn count_again(w: &mut [u32], n: u8, count: u32)
    ensures { CountedAgain w.old w.new n count count }
{
    for e in 0..count {
        egg::inner::put(w, e as usize, n as usize);
    }
}

// Refusal 10: the first element that is not the inverse of its inverse.
pub fn inverses_right(t: &[u32], n: u8, count: u32) -> Result<(), Refusal>
    ensures { result ≡ inverses_right t.now n count }
{
    for e in 0..count {
        let i = egg::inner::get(t, egg::inner::inverse_at(n, GroupElementId(e)));
        let j = egg::inner::get(t, egg::inner::inverse_at(n, GroupElementId(i)));
        if j != e {
            return Err(Refusal::InverseDiffers(
                GroupElementId(e),
                GroupElementId(i),
                GroupElementId(j),
            ));
        }
    }
    Ok(())
}
