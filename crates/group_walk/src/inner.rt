// The refusals of a walk in a product, and the walk in digits.
ghost use Rattle.std.specs.Prelude.{◌≡◌, ℕ, ◌<◌, length};
ghost use Rattle.group_handles.specs.Handles.{handles, elements_of, generators_of, capped, seen};
ghost use Rattle.group_walk.specs.Walked.{follows, admits_walk, walk_answer, Walkable, Owned};

use egg::inner::chosen;
use egg::{GeneratorId, GroupElementId, Refusal};
use group_handles::Group;
use group_handles::inner::Seen;

// Refuses, by what one pass over the handles has shown, in this order: 17 for a handle that does not fit, 14 for the start and then for the first letter
// that is out of range, 15 for a product too large.
fn admit_walk(s: Seen, g: Group, e: u32, word: &[u8]) -> Result<(), Refusal>
    ensures { (len : ℕ) → s ≡ seen len (handles g) → result ≡ admits_walk len g e word.now }
{
    if !s.fit {
        return Err(Refusal::Unreadable);
    }
    if s.elements <= (e as u64) {
        return Err(Refusal::ArgumentOutside(0));
    }
    factor_walk::inner::letters_right(s.generators, word)?;
    if 8 < g.count {
        return Err(Refusal::TooLarge);
    }
    if 4294967295 < s.elements {
        return Err(Refusal::TooLarge);
    }
    Ok(())
}

// The place of a factor, and how many generators come before its own.
#[derive(Clone, Copy)]
pub struct Owner {
    pub at: u32,
    pub before: u32,
}

// Finds the factor that has the letter x: the last that no more than x generators come before. All factors are looked at, without a branch, since
// nobody can guess which one it is.
fn find(g: Group, x: u32) -> Owner
    ensures { x < generators_of (handles g) → Owned (handles g) x result.at result.before }
{
    let c = group_handles::inner::listed(g);
    let mut generators: u32 = 0;
    let mut at: u32 = 0;
    let mut before: u32 = 0;
    for f in 0..c {
        let h = g.factors[f];
        let here = generators <= x;
        at = chosen(here, f as u32, at);
        before = chosen(here, generators, before);
        generators += h.generators as u32;
    }
    Owner { at, before }
}

// Walks in digits. A digit that cannot be stepped on ends it with 17.
fn follow(
    table: &[u32],
    g: Group,
    elements: u64,
    from: GroupElementId,
    word: &[u8],
) -> Result<GroupElementId, Refusal>
    requires { (Walkable (length table.now) g from.0 word.now) × (elements ≡ capped (elements_of (handles g))) }
    ensures { result ≡ follows table.now (handles g) from.0 word.now }
{
    let mut digits = [0; 8];
    // Eight places are enough, so that this does not refuse.
    let _ = group_digits::inner::split_in(g, from, &mut digits);
    for i in 0..word.len() {
        let x = factor_walk::inner::wide(word[i]);
        let o = find(g, x);
        let f = o.at as usize;
        let h = g.factors[f];
        let y = egg::inner::next(
            egg::inner::part(table, h),
            h.generators,
            h.elements,
            GroupElementId(digits[f]),
            GeneratorId((x - o.before) as u8),
        )?;
        digits[f] = y.0;
    }
    group_digits::inner::join_in(g, elements, &digits)
}

// Refuses what is to be refused before anything is read; else walks.
pub fn walk(
    table: &[u32],
    g: Group,
    from: GroupElementId,
    word: &[u8],
) -> Result<GroupElementId, Refusal>
    ensures { result ≡ walk_answer table.now g from word.now }
{
    let s = group_handles::inner::look(table, g);
    admit_walk(s, g, from.0, word)?;
    follow(table, g, s.elements, from, word)
}
