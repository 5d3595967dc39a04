// Each check looks at the places in document 01's order and answers the first refusal; all are total on any contents.
ghost use Rattle.std.specs.Prelude.{true, ◌≡◌};
ghost use Rattle.egg.specs.Answers.{fine};
ghost use Rattle.egg.specs.Table.{back_of};
ghost use Rattle.build_checks_group.specs.Lefts.{identity_row, columns_row, spelled_row, spelled, left_of, fill_left, goes_row, all_go, Lefts, lefts, check_steps};

use egg::{GeneratorId, GroupElementId, Refusal};

// Refusal 11: the first generator at which the identity row is not 1..n.
fn identity_row(t: &[u32], n: u8) -> Result<(), Refusal>
    ensures { result ≡ identity_row t.now n }
{
    for g in 0..n {
        if egg::inner::step(t, n, GroupElementId(0), GeneratorId(g)).0 != (g as u32) + 1 {
            return Err(Refusal::IdentityRowDiffers(GeneratorId(g)));
        }
    }
    Ok(())
}

// The step back of a table with nothing missing.
fn back(t: &[u32], n: u8, e: GroupElementId, g: GeneratorId) -> GroupElementId
    ensures { result.0 ≡ back_of t.now n e.0 g.0 }
{
    egg::inner::element(egg::inner::cell(t, n, e, n, g.0 as u32))
}

// The first part of 12, in one row: each step back is undone by the step, so that the columns are permutations.
fn columns_row(t: &[u32], n: u8, e: GroupElementId) -> Result<(), Refusal>
    ensures { result ≡ columns_row t.now n e.0 }
{
    for g in 0..n {
        let from = back(t, n, e, GeneratorId(g));
        if egg::inner::step(t, n, from, GeneratorId(g)).0 != e.0 {
            return Err(Refusal::NoGroup);
        }
    }
    Ok(())
}

// The second part of 12, for one element: its recorded word leads to it, and has the recorded length.
fn spelled_row(t: &[u32], n: u8, e: GroupElementId) -> Result<(), Refusal>
    ensures { result ≡ spelled_row t.now n e.0 }
{
    let len = egg::inner::word_length(t, n, e);
    if e.0 == 0 {
        if len != 0 {
            return Err(Refusal::NoGroup);
        }
        return Ok(());
    }
    let p = GroupElementId(egg::inner::parent(t, n, e));
    if egg::inner::step_last(t, n, p, e).0 != e.0 {
        return Err(Refusal::NoGroup);
    }
    let before = egg::inner::word_length(t, n, p);
    if (len as usize) != (before as usize) + 1 {
        return Err(Refusal::NoGroup);
    }
    Ok(())
}

// Both parts for all elements.
fn spelled(t: &[u32], n: u8, count: u32) -> Result<(), Refusal>
    ensures { result ≡ spelled t.now n count }
{
    for e in 0..count {
        columns_row(t, n, GroupElementId(e))?;
        spelled_row(t, n, GroupElementId(e))?;
    }
    Ok(())
}

// The product s·x, where the work has s times each element before x: it goes on from the parent of x.
fn left_of(t: &[u32], w: &[u32], n: u8, s: GeneratorId, x: GroupElementId) -> GroupElementId
    ensures { result.0 ≡ left_of t.now n s.0 w.now x.0 }
{
    if 0 < x.0 {
        let p = egg::inner::parent(t, n, x);
        let from = egg::inner::get(w, p as usize);
        return egg::inner::step_last(t, n, GroupElementId(from), x);
    }
    egg::inner::step(t, n, GroupElementId(0), s)
}

// Writes s·x for every element x into the start of the work.
fn fill_left(t: &[u32], w: &mut [u32], n: u8, count: u32, s: GeneratorId)
    ensures { w.new ≡ fill_left count t.now n s.0 w.old 0 }
{
    for x in 0..count {
        let y = left_of(t, w, n, s, GroupElementId(x)).0;
        egg::inner::put(w, x as usize, y as usize);
    }
}

// Answers true where multiplication on the left commutes with every step from x. It makes one test for each of the two
// rows that it reads, and one for each number that leads into the work; false may only mean that a number is out of
// range, and then `goes_with_care` has the answer.
fn goes_at_once(t: &[u32], w: &[u32], n: u8, x: GroupElementId) -> bool
    ensures { result ≡ true → goes_row t.now w.now n x.0 ≡ fine }
{
    let left = GroupElementId(egg::inner::get(w, x.0 as usize));
    let from = egg::inner::start(n, x);
    let to = egg::inner::start(n, left);
    let far = n as usize;
    if t.len() < from + far {
        return false;
    }
    if t.len() < to + far {
        return false;
    }
    for g in 0..far {
        let y = egg::inner::read(t, from + g) as usize;
        if y == 0 {
            return false;
        }
        if w.len() < y {
            return false;
        }
        let after = egg::inner::read(w, y - 1) as usize;
        if after + 1 != (egg::inner::read(t, to + g) as usize) {
            return false;
        }
    }
    true
}

// The third part of 12 at x, with every number looked at.
fn goes_with_care(t: &[u32], w: &[u32], n: u8, x: GroupElementId) -> Result<(), Refusal>
    ensures { result ≡ goes_row t.now w.now n x.0 }
{
    let left = GroupElementId(egg::inner::get(w, x.0 as usize));
    for g in 0..n {
        let y = egg::inner::step(t, n, x, GeneratorId(g)).0;
        if egg::inner::get(w, y as usize) != egg::inner::step(t, n, left, GeneratorId(g)).0 {
            return Err(Refusal::NoGroup);
        }
    }
    Ok(())
}

// The third part of 12 at x: multiplication on the left, as the work has it, commutes with every step from x.
fn goes_row(t: &[u32], w: &[u32], n: u8, x: GroupElementId) -> Result<(), Refusal>
    ensures { result ≡ goes_row t.now w.now n x.0 }
{
    if goes_at_once(t, w, n, x) {
        return Ok(());
    }
    goes_with_care(t, w, n, x)
}

// The third part of 12 at all elements, for the generator whose products the work has.
fn all_go(t: &[u32], w: &[u32], n: u8, count: u32) -> Result<(), Refusal>
    ensures { result ≡ all_go t.now w.now n count }
{
    for x in 0..count {
        goes_row(t, w, n, GroupElementId(x))?;
    }
    Ok(())
}

// The third part of 12 for each generator in turn.
pub fn check12(t: &[u32], w: &mut [u32], n: u8, count: u32) -> Result<(), Refusal>
    ensures { Lefts.left result w.new ≡ lefts n t.now n count w.old 0 }
{
    for s in 0..n {
        fill_left(t, w, n, count, GeneratorId(s));
        all_go(t, w, n, count)?;
    }
    Ok(())
}

// Refusal 11, then the first two parts of 12: the columns are permutations, and the recorded words lead to their
// elements.
pub fn check_steps(t: &[u32], n: u8, count: u32) -> Result<(), Refusal>
    ensures { result ≡ check_steps t.now n count }
{
    identity_row(t, n)?;
    spelled(t, n, count)
}
