// Makes those of the checks 8 to 12 that a reading which ended leaves to be made, as `build_checks`, `build_checks_inverses` and `build_checks_group`
// make them, over lent bytes.
ghost use Rattle.std.specs.Prelude.{◌≡◌, true, get_or};
ghost use Rattle.build_checks.specs.Checks.{missing_row, missing, wrong_at, wrong_row, wrong};
ghost use Rattle.build_checks_inverses.specs.Inverses.{invert_of, inverses_right};
ghost use Rattle.build_checks_group.specs.Lefts.{identity_row, left_of, goes_row, all_go};
ghost use Rattle.build_checks_inverses.specs.Hints.{Follows, Hint, Hints, inverse_by};
ghost use Rattle.image_cells.specs.Cells.{cells};

use egg::{GeneratorId, GroupElementId, Refusal};
use image_check_reading::inner::table;

// Refuses with 8 the first generator of one row whose number, from `shift` on, is not known.
fn missing_row(t: &[u8], n: u8, shift: u8, e: GroupElementId) -> Result<(), Refusal>
    ensures { result ≡ missing_row (cells t.now) n shift e.0 }
{
    for g in 0..n {
        if table::cell(t, n, e, shift, g as u32) == 0 {
            return Err(Refusal::StepMissing(e, GeneratorId(g)));
        }
    }
    Ok(())
}

// Refuses with 8 the first such place of the table.
pub fn missing(t: &[u8], n: u8, count: u32, shift: u8) -> Result<(), Refusal>
    ensures { result ≡ missing (cells t.now) n count shift }
{
    for e in 0..count {
        missing_row(t, n, shift, GroupElementId(e))?;
    }
    Ok(())
}

// Refuses with 9 a place (003) whose step stays where it is, or leads to the generator's element from elsewhere than the identity.
fn wrong_at(t: &[u8], n: u8, e: GroupElementId, g: GeneratorId) -> Result<(), Refusal>
    ensures { result ≡ wrong_at (cells t.now) n e.0 g.0 }
{
    let r = table::step(t, n, e, g);
    if r.0 == e.0 {
        return Err(Refusal::StepAstray(e, g));
    }
    if e.0 == 0 {
        return Ok(());
    }
    if r.0 == table::step(t, n, GroupElementId(0), g).0 {
        return Err(Refusal::StepAstray(e, g));
    }
    Ok(())
}

// Refuses with 9 the first such place of one row.
fn wrong_row(t: &[u8], n: u8, e: GroupElementId) -> Result<(), Refusal>
    ensures { result ≡ wrong_row (cells t.now) n e.0 }
{
    for g in 0..n {
        wrong_at(t, n, e, GeneratorId(g))?;
    }
    Ok(())
}

// Refuses with 9 the first such place of the table.
pub fn wrong(t: &[u8], n: u8, count: u32) -> Result<(), Refusal>
    ensures { result ≡ wrong (cells t.now) n count }
{
    for e in 0..count {
        wrong_row(t, n, GroupElementId(e))?;
    }
    Ok(())
}

// Answers the inverse of e: its reversed word, walked through predecessors from the identity (002).
fn invert(t: &[u8], n: u8, e: GroupElementId) -> GroupElementId
    ensures { result.0 ≡ invert_of (cells t.now) n e.0 }
{
    let mut x = 0;
    let mut at = e.0;
    for _ in 0..table::word_length(t, n, e) {
        x = table::back_last(t, n, GroupElementId(x), GroupElementId(at)).0;
        at = table::parent(t, n, GroupElementId(at));
    }
    GroupElementId(x)
}

// Whether the word of y, an earlier element than e, is that of `from` and the last letter of e, and one letter shorter.
fn follows_on(t: &[u8], n: u8, from: GroupElementId, y: GroupElementId, e: GroupElementId) -> bool
    ensures { result ≡ true → Follows (cells t.now) n from.0 y.0 e.0 }
{
    if e.0 <= y.0 {
        return false;
    }
    if table::parent(t, n, y) != from.0 {
        return false;
    }
    if table::last(t, n, y) != table::last(t, n, e) {
        return false;
    }
    let long = table::word_length(t, n, y) as usize;
    if long != (table::word_length(t, n, from) as usize) + 1 {
        return false;
    }
    (table::word_length(t, n, e) as usize) == long + 1
}

// Answers the hint of e, by which its inverse comes from an earlier one (`build_checks_inverses`), where the work has the hints of the elements
// before it. The first letter of a word is that of its parent's word, and what comes after it is one letter longer.
pub fn hint_of(t: &[u8], w: &[u8], n: u8, e: GroupElementId) -> u32
    ensures { Hints (cells t.now) (cells w.now) n e.0 → Hint (cells t.now) n e.0 result }
{
    let g = table::last(t, n, e);
    if (n as u32) <= g {
        return 0;
    }
    if table::word_length(t, n, e) == 1 {
        if table::word_length(t, n, GroupElementId(0)) != 0 {
            return 0;
        }
        return build_checks_inverses::inner::pack(GroupElementId(0), g);
    }
    let p = table::parent(t, n, e);
    if e.0 <= p {
        return 0;
    }
    let h = image_cells::inner::get(w, p as usize);
    if h == 0 {
        return 0;
    }
    let from = GroupElementId((h - 1) / 256);
    let y = table::step_last(t, n, from, e);
    if !follows_on(t, n, from, y, e) {
        return 0;
    }
    build_checks_inverses::inner::pack(y, (h - 1) % 256)
}

// Answers the inverse of e by its hint in the work: one step back from an inverse that is written already, and not a walk of the word.
pub fn inverse_by(t: &[u8], w: &[u8], n: u8, e: GroupElementId) -> GroupElementId
    ensures { result.0 ≡ inverse_by (cells t.now) n e.0 (get_or (cells w.now) e.0 0) }
{
    let h = image_cells::inner::get(w, e.0 as usize);
    if h == 0 {
        return invert(t, n, e);
    }
    let tail = GroupElementId((h - 1) / 256);
    let x = image_cells::inner::get(t, egg::inner::inverse_at(n, tail));
    egg::inner::element(table::cell(t, n, GroupElementId(x), n, (h - 1) % 256))
}

// Refuses with 10 the first element whose inverse's inverse differs from it.
pub fn inverses_right(t: &[u8], n: u8, count: u32) -> Result<(), Refusal>
    ensures { result ≡ inverses_right (cells t.now) n count }
{
    for e in 0..count {
        let i = image_cells::inner::get(t, egg::inner::inverse_at(n, GroupElementId(e)));
        let j = image_cells::inner::get(t, egg::inner::inverse_at(n, GroupElementId(i)));
        if j != e {
            return Err(Refusal::InverseDiffers(
                GroupElementId(e),
                GroupElementId(i),
                GroupElementId(j),
            ));
        }
    }
    Ok(())
}

// Refuses with 11 the first generator at which the identity row is not 1..n.
pub fn identity_row(t: &[u8], n: u8) -> Result<(), Refusal>
    ensures { result ≡ identity_row (cells t.now) n }
{
    for g in 0..n {
        if table::step(t, n, GroupElementId(0), GeneratorId(g)).0 != (g as u32) + 1 {
            return Err(Refusal::IdentityRowDiffers(GeneratorId(g)));
        }
    }
    Ok(())
}

// Answers what generator s on the left makes of x, where the work has it for the elements before x.
pub fn left_of(t: &[u8], w: &[u8], n: u8, s: GeneratorId, x: GroupElementId) -> GroupElementId
    ensures { result.0 ≡ left_of (cells t.now) n s.0 (cells w.now) x.0 }
{
    if 0 < x.0 {
        let p = table::parent(t, n, x);
        let from = image_cells::inner::get(w, p as usize);
        return table::step_last(t, n, GroupElementId(from), x);
    }
    table::step(t, n, GroupElementId(0), s)
}

// The last part of 12 in one row: multiplication on the left commutes with every step from x.
fn goes_row(t: &[u8], w: &[u8], n: u8, x: GroupElementId) -> Result<(), Refusal>
    ensures { result ≡ goes_row (cells t.now) (cells w.now) n x.0 }
{
    let left = GroupElementId(image_cells::inner::get(w, x.0 as usize));
    for g in 0..n {
        let y = table::step(t, n, x, GeneratorId(g)).0;
        if image_cells::inner::get(w, y as usize) != table::step(t, n, left, GeneratorId(g)).0 {
            return Err(Refusal::NoGroup);
        }
    }
    Ok(())
}

// The last part of 12 in every row.
pub fn all_go(t: &[u8], w: &[u8], n: u8, count: u32) -> Result<(), Refusal>
    ensures { result ≡ all_go (cells t.now) (cells w.now) n count }
{
    for x in 0..count {
        goes_row(t, w, n, GroupElementId(x))?;
    }
    Ok(())
}
