// The checks of a table that was built to its end. Each looks at the places in document 01's order and answers the
// first refusal. They are total on any contents, so that a build over an altered buffer is refused as well: with 17
// where a number is out of range.
ghost use Rattle.std.specs.Prelude.{◌≡◌};
ghost use Rattle.build_checks.specs.Checks.{missing_row, missing, check8, range_row, links_of, ranges, wrong_at, wrong_row, wrong, check_table, wiped, arrive_row, arrivals, counts_right, Checked, check_rest, check_group};

use egg::{GeneratorId, GroupElementId, Refusal};

// Refusal 8 in one row: the first generator whose number is not known. The numbers stand in the row from `shift` on,
// which is 0 for the successors and n for the predecessors.
fn missing_row(t: &[u32], n: u8, shift: u8, e: GroupElementId) -> Result<(), Refusal>
    ensures { result ≡ missing_row t.now n shift e.0 }
{
    for g in 0..n {
        if egg::inner::cell(t, n, e, shift, g as u32) == 0 {
            return Err(Refusal::StepMissing(e, GeneratorId(g)));
        }
    }
    Ok(())
}

// Refusal 8 in the successors of the whole table, or, with the shift n, in its predecessors.
fn missing(t: &[u32], n: u8, count: u32, shift: u8) -> Result<(), Refusal>
    ensures { result ≡ missing t.now n count shift }
{
    for e in 0..count {
        missing_row(t, n, shift, GroupElementId(e))?;
    }
    Ok(())
}

// Refusal 8: for a successor that is missing, and only then for a predecessor.
#[tactic(auto, using(egg::proofs::Refusing::handed_on), unfolding(crate::specs::Checks::check8))]
pub fn check8(t: &[u32], n: u8, count: u32) -> Result<(), Refusal>
    ensures { result ≡ check8 t.now n count }
{
    missing(t, n, count, 0)?;
    missing(t, n, count, n)
}

// Refusal 17 in one row: a step or a step back that leads beyond the elements.
fn range_row(t: &[u32], n: u8, count: u32, e: GroupElementId) -> Result<(), Refusal>
    ensures { result ≡ range_row t.now n count e.0 }
{
    for k in 0..2 * (n as u32) {
        if count < egg::inner::cell(t, n, e, 0, k) {
            return Err(Refusal::Unreadable);
        }
    }
    Ok(())
}

// Refusal 17 in the record of a word: it is too long, its parent is no earlier element, or its last letter is no
// generator.
fn links(t: &[u32], n: u8, e: GroupElementId) -> Result<(), Refusal>
    ensures { result ≡ links_of t.now n e.0 }
{
    if 4096 < egg::inner::word_length(t, n, e) {
        return Err(Refusal::Unreadable);
    }
    if e.0 == 0 {
        return Ok(());
    }
    if e.0 <= egg::inner::parent(t, n, e) {
        return Err(Refusal::Unreadable);
    }
    if (n as u32) <= egg::inner::last(t, n, e) {
        return Err(Refusal::Unreadable);
    }
    Ok(())
}

// Refusal 17 in all rows and in the records of all words.
fn ranges(t: &[u32], n: u8, count: u32) -> Result<(), Refusal>
    ensures { result ≡ ranges t.now n count }
{
    for e in 0..count {
        range_row(t, n, count, GroupElementId(e))?;
        links(t, n, GroupElementId(e))?;
    }
    Ok(())
}

// Refusal 9 at one place, as 003 tests it: a step that stays where it is, or one to a generator's element, which only
// the identity may have by that generator.
fn wrong_at(t: &[u32], n: u8, e: GroupElementId, g: GeneratorId) -> Result<(), Refusal>
    ensures { result ≡ wrong_at t.now n e.0 g.0 }
{
    let r = egg::inner::step(t, n, e, g);
    if r.0 == e.0 {
        return Err(Refusal::StepAstray(e, g));
    }
    if e.0 == 0 {
        return Ok(());
    }
    if r.0 == egg::inner::step(t, n, GroupElementId(0), g).0 {
        return Err(Refusal::StepAstray(e, g));
    }
    Ok(())
}

// Refusal 9 at the first such place of a row.
fn wrong_row(t: &[u32], n: u8, e: GroupElementId) -> Result<(), Refusal>
    ensures { result ≡ wrong_row t.now n e.0 }
{
    for g in 0..n {
        wrong_at(t, n, e, GeneratorId(g))?;
    }
    Ok(())
}

// Refusal 9 at the first such place of the table.
fn wrong(t: &[u32], n: u8, count: u32) -> Result<(), Refusal>
    ensures { result ≡ wrong t.now n count }
{
    for e in 0..count {
        wrong_row(t, n, GroupElementId(e))?;
    }
    Ok(())
}

// What is tested on the table alone: 8, then 17 in what is stored, then 9 but for its counts.
#[tactic(auto, using(egg::proofs::Refusing::handed_on), unfolding(crate::specs::Checks::check_table))]
pub fn check_table(t: &[u32], n: u8, count: u32) -> Result<(), Refusal>
    ensures { result ≡ check_table t.now n count }
{
    check8(t, n, count)?;
    ranges(t, n, count)?;
    wrong(t, n, count)
}

// Zeroes the first numbers of the work, where arrivals are counted.
fn wipe(w: &mut [u32], count: u32)
    ensures { w.new ≡ wiped count w.old 0 }
{
    for e in 0..count {
        egg::inner::put(w, e as usize, 0);
    }
}

// Counts the arrivals by the steps from one element.
fn arrive_row(t: &[u32], w: &mut [u32], n: u8, e: GroupElementId)
    ensures { w.new ≡ arrive_row n t.now n e.0 w.old 0 }
{
    for g in 0..n {
        let r = egg::inner::step(t, n, e, GeneratorId(g)).0 as usize;
        let was = egg::inner::get(w, r) as usize;
        egg::inner::put(w, r, was + 1);
    }
}

// Counts in the work how often each element is arrived at, over all generators together (003).
fn arrivals(t: &[u32], w: &mut [u32], n: u8, count: u32)
    ensures { w.new ≡ arrivals count t.now n w.old 0 }
{
    for e in 0..count {
        arrive_row(t, w, n, GroupElementId(e));
    }
}

// Refusal 9 for a count: the first element that is not arrived at n times.
fn counts_right(w: &[u32], n: u8, count: u32) -> Result<(), Refusal>
    ensures { result ≡ counts_right w.now n count }
{
    for e in 0..count {
        if egg::inner::get(w, e as usize) != (n as u32) {
            return Err(Refusal::StepAstray(GroupElementId(e), GeneratorId(n)));
        }
    }
    Ok(())
}

// Refusals 10, 11 and 12, once the inverses are written.
fn check_rest(t: &[u32], w: &mut [u32], n: u8, count: u32) -> Result<(), Refusal>
    ensures { Checked.checked result t.now w.new ≡ check_rest t.now w.old n count }
{
    build_checks_inverses::inner::inverses_right(t, n, count)?;
    build_checks_group::inner::check_steps(t, n, count)?;
    build_checks_group::inner::check12(t, w, n, count)
}

// Refusals 8 to 12 in order; writes the inverses when 9 has passed. The hints by which inverses are found stand in the
// work for that time only.
pub fn check_group(t: &mut [u32], w: &mut [u32], n: u8, count: u32) -> Result<(), Refusal>
    ensures { Checked.checked result t.new w.new ≡ check_group t.old w.old n count }
{
    check_table(t, n, count)?;
    wipe(w, count);
    arrivals(t, w, n, count);
    counts_right(w, n, count)?;
    build_checks_inverses::inner::fill_hints(t, w, n, count);
    build_checks_inverses::inner::fill_inverses(t, w, n, count);
    build_checks_inverses::inner::count_again(w, n, count);
    check_rest(t, w, n, count)
}
