// What the handles of a product have together, and the refusals that come before anything is read in a table.
ghost use Rattle.std.specs.Prelude.{◌≡◌, true, ◌&&◌, ◌++◌, ◌+◌, ◌*◌, ◌≤◌, length, get_or};
ghost use Rattle.build_lending.specs.Lending.{no_factor};
ghost use Rattle.group_handles.specs.Handles.{handles, sizes, elements_of, generators_of, all_fit, capped, seen, limit_of, limit_seen, limited, admits, admits_seen, group_of};
ghost use Rattle.group_handles.specs.Alone.{Alone};

use super::Group;
use egg::{Factor, Refusal};

// How many handles are listed.
pub fn listed(g: Group) -> usize
    ensures { (result ≡ length (handles g)) × (result ≤ 8) }
{
    if 8 < g.count { 8 } else { g.count as usize }
}

// Whether there is one factor, and no more.
pub fn alone(g: Group) -> bool
    ensures { result ≡ true → Alone g }
{
    g.count == 1
}

// The handle of the factor f; where there is none, the one that fits no buffer.
pub fn handle(g: Group, f: usize) -> Factor
    ensures { result ≡ get_or (handles g) f no_factor }
{
    if listed(g) <= f {
        return build_lending::inner::no_factor();
    }
    g.factors[f]
}

// How many elements the factor f has; 1 where there is no factor.
pub fn size_of(g: Group, f: usize) -> u32
    ensures { result ≡ get_or (sizes (handles g)) f 1 }
{
    if listed(g) <= f {
        return 1;
    }
    handle(g, f).elements
}

// Multiplies as far as 32 bits can tell: 4,294,967,296 stands for everything above them.
pub fn times(p: u64, n: u32) -> u64
    requires { p ≤ 4294967296 }
    ensures { result ≡ capped (p * n) }
{
    let q = p * (n as u64);
    if q <= 4294967295 { q } else { 4294967296 }
}

// What one pass over the handles shows: whether each fits the buffer, and how many elements (as far as 32 bits can tell)
// and generators they have together.
#[derive(Clone, Copy)]
pub struct Seen {
    pub fit: bool,
    pub elements: u64,
    pub generators: u32,
}

pub fn both(a: bool, b: bool) -> bool
    ensures { result ≡ a && b }
{
    if a { b } else { false }
}

// Passes over the handles once, for all that the refusals need.
pub fn look(table: &[u32], g: Group) -> Seen
    ensures { (result ≡ seen (length table.now) (handles g)) × (result.generators ≤ 2040) }
{
    let c = listed(g);
    let mut fit = true;
    let mut elements: u64 = 1;
    let mut generators: u32 = 0;
    for f in 0..c {
        let h = g.factors[f];
        fit = both(fit, egg::fits(table, h));
        elements = times(elements, h.elements);
        generators += h.generators as u32;
    }
    Seen {
        fit,
        elements,
        generators,
    }
}

// Whether every handle that is listed fits its buffer.
pub fn all_fit(table: &[u32], g: Group) -> bool
    ensures { result ≡ all_fit (length table.now) (handles g) }
{
    look(table, g).fit
}

// How many elements the product has, as far as 32 bits can tell. What the pass shows of elements and generators is the same over every buffer; so
// here and in `generators_of` a buffer of one zero is made only to be passed.
pub fn elements_of(g: Group) -> u64
    ensures { result ≡ capped (elements_of (handles g)) }
{
    look(&[0; 1], g).elements
}

// How many generators the product has; it lists eight handles at most, so the sum is small.
pub fn generators_of(g: Group) -> u32
    ensures { (result ≡ generators_of (handles g)) × (result ≤ 2040) }
{
    look(&[0; 1], g).generators
}

// Whether the product has at most 8 factors and 4,294,967,295 elements.
pub fn limited(g: Group) -> bool
    ensures { result ≡ limited g }
{
    if 8 < g.count {
        return false;
    }
    elements_of(g) <= 4294967295
}

// What an argument has to be below.
#[derive(Clone, Copy)]
pub enum Limit {
    Elements,
    Generators,
    Number(u32),
}

// The number that the limit stands for, by what was seen of the handles.
fn limit_of(s: Seen, l: Limit) -> u64
    ensures { result ≡ limit_seen s l }
{
    match l {
        Limit::Elements => s.elements,
        Limit::Generators => s.generators as u64,
        Limit::Number(k) => k as u64,
    }
}

// Refuses in this order: 17 where a handle was seen not to fit, 14 for the first or the second argument where it is not below its limit, 15 for more
// than 8 factors or a product too large.
pub fn admit_seen(s: Seen, count: u8, a: u32, la: Limit, b: u32, lb: Limit) -> Result<(), Refusal>
    ensures { result ≡ admits_seen s count a la b lb }
{
    if !s.fit {
        return Err(Refusal::Unreadable);
    }
    if limit_of(s, la) <= (a as u64) {
        return Err(Refusal::ArgumentOutside(0));
    }
    if limit_of(s, lb) <= (b as u64) {
        return Err(Refusal::ArgumentOutside(1));
    }
    if 8 < count {
        return Err(Refusal::TooLarge);
    }
    if 4294967295 < s.elements {
        return Err(Refusal::TooLarge);
    }
    Ok(())
}

// The same for a call with one argument: the place of the second has 0, which is below 1.
pub fn admit_one_seen(s: Seen, count: u8, a: u32, la: Limit) -> Result<(), Refusal>
    ensures { result ≡ admits_seen s count a la 0 (Limit.Number 1) }
{
    admit_seen(s, count, a, la, 0, Limit::Number(1))
}

// The same for a call with no argument.
pub fn admit_none_seen(s: Seen, count: u8) -> Result<(), Refusal>
    ensures { result ≡ admits_seen s count 0 (Limit.Number 1) 0 (Limit.Number 1) }
{
    admit_one_seen(s, count, 0, Limit::Number(1))
}

// Looks at the handles, and refuses as `admit_seen` does.
pub fn admit(table: &[u32], g: Group, a: u32, la: Limit, b: u32, lb: Limit) -> Result<(), Refusal>
    ensures { result ≡ admits (length table.now) g a (limit_of (handles g) la) b (limit_of (handles g) lb) }
{
    let s = look(table, g);
    admit_seen(s, g.count, a, la, b, lb)
}

// The same for a call with one argument.
pub fn admit_one(table: &[u32], g: Group, a: u32, la: Limit) -> Result<(), Refusal>
    ensures { result ≡ admits (length table.now) g a (limit_of (handles g) la) 0 1 }
{
    admit(table, g, a, la, 0, Limit::Number(1))
}

// The handle at i in the list of both: the handles of a, then those of b.
fn either(a: Group, b: Group, i: usize) -> Factor
    ensures { result ≡ get_or (handles a ++ handles b) i no_factor }
{
    let k = listed(a);
    if i < k {
        return handle(a, i);
    }
    handle(b, i - k)
}

// The product that lists the handles of a and then those of b.
pub fn joined(a: Group, b: Group) -> Group
    requires { length (handles a) + length (handles b) ≤ 8 }
    ensures { result ≡ group_of (handles a ++ handles b) }
{
    Group {
        factors: [
            either(a, b, 0),
            either(a, b, 1),
            either(a, b, 2),
            either(a, b, 3),
            either(a, b, 4),
            either(a, b, 5),
            either(a, b, 6),
            either(a, b, 7),
        ],
        count: (listed(a) + listed(b)) as u8,
    }
}
