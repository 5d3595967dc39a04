// The work of the calls. What reads the table is done once the handles are known to fit and the product's elements to have numbers of 32 bits.
// `project_in`, `inject_in`, `split_in` and `join_in` read no table, and ask of the handles that each has an element; the first two, that the product's
// elements have numbers of 32 bits too.
ghost use Rattle.std.specs.Prelude.{◌≡◌, true, ◌<◌, ◌≤◌, length, get_or};
ghost use Rattle.theory_radix.specs.Radix.{stride, project, inject};
ghost use Rattle.group_handles.specs.Handles.{handles, sizes, elements_of, all_fit, capped};
ghost use Rattle.group_digits.specs.Digits.{PartQuestion, digit_of, digitwise, step_in};
ghost use Rattle.group_digits.specs.Splits.{digits_left, digits_right, fewer, split_tail, join_tail};

use egg::{GeneratorId, GroupElementId, Refusal};
use group_handles::Group;

// Goes factor by factor: the elements are split on the way, and `sum` holds the digits answered so far, each times its stride. Each question has a
// loop of its own, because one loop for all, with the question as an argument, took half as long again.
pub fn compose_digits(
    table: &[u32],
    g: Group,
    a: GroupElementId,
    b: GroupElementId,
) -> Result<GroupElementId, Refusal>
    requires { (all_fit (length table.now) (handles g) ≡ true) × (elements_of (handles g) ≤ 4294967295) }
    ensures { result ≡ digitwise (digit_of PartQuestion.Compose table.now) (handles g) a.0 b.0 }
{
    let c = group_handles::inner::listed(g);
    let mut stride: u32 = 1;
    let mut sum: u32 = 0;
    let mut x = a.0;
    let mut y = b.0;
    for f in 0..c {
        let h = g.factors[f];
        let n = h.elements;
        let s = egg::inner::part(table, h);
        let d = factor_compose::inner::compose_elements(
            s,
            h.generators,
            n,
            GroupElementId(x % n),
            GroupElementId(y % n),
        )?;
        sum += stride * d.0;
        stride *= n;
        x /= n;
        y /= n;
    }
    Ok(GroupElementId(sum))
}

pub fn inverse_digits(table: &[u32], g: Group, a: GroupElementId) -> Result<GroupElementId, Refusal>
    requires { (all_fit (length table.now) (handles g) ≡ true) × (elements_of (handles g) ≤ 4294967295) }
    ensures { result ≡ digitwise (digit_of PartQuestion.Inverse table.now) (handles g) a.0 0 }
{
    let c = group_handles::inner::listed(g);
    let mut stride: u32 = 1;
    let mut sum: u32 = 0;
    let mut x = a.0;
    for f in 0..c {
        let h = g.factors[f];
        let n = h.elements;
        let s = egg::inner::part(table, h);
        let d = factor_questions::inner::inverse_in(s, h.generators, n, GroupElementId(x % n))?;
        sum += stride * d.0;
        stride *= n;
        x /= n;
    }
    Ok(GroupElementId(sum))
}

pub fn conjugate_digits(
    table: &[u32],
    g: Group,
    a: GroupElementId,
    b: GroupElementId,
) -> Result<GroupElementId, Refusal>
    requires { (all_fit (length table.now) (handles g) ≡ true) × (elements_of (handles g) ≤ 4294967295) }
    ensures { result ≡ digitwise (digit_of PartQuestion.Conjugate table.now) (handles g) a.0 b.0 }
{
    let c = group_handles::inner::listed(g);
    let mut stride: u32 = 1;
    let mut sum: u32 = 0;
    let mut x = a.0;
    let mut y = b.0;
    for f in 0..c {
        let h = g.factors[f];
        let n = h.elements;
        let s = egg::inner::part(table, h);
        let d = factor_compose::inner::conjugate_elements(
            s,
            h.generators,
            n,
            GroupElementId(x % n),
            GroupElementId(y % n),
        )?;
        sum += stride * d.0;
        stride *= n;
        x /= n;
        y /= n;
    }
    Ok(GroupElementId(sum))
}

// Takes the step in the factor that has the generator; the other digits stay.
pub fn step_in(
    table: &[u32],
    g: Group,
    e: GroupElementId,
    x: GeneratorId,
) -> Result<GroupElementId, Refusal>
    requires { (all_fit (length table.now) (handles g) ≡ true) × ((elements_of (handles g) ≤ 4294967295) × (e.0 < elements_of (handles g))) }
    ensures { result ≡ step_in table.now (handles g) e.0 x.0 }
{
    let c = group_handles::inner::listed(g);
    let mut stride: u32 = 1;
    let mut low: u32 = 0;
    let mut rest = e.0;
    let mut left = x.0;
    for f in 0..c {
        let h = g.factors[f];
        let n = h.elements;
        if left < h.generators {
            let d = egg::inner::next(
                egg::inner::part(table, h),
                h.generators,
                n,
                GroupElementId(rest % n),
                GeneratorId(left),
            )?;
            return Ok(GroupElementId(low + stride * (d.0 + n * (rest / n))));
        }
        left -= h.generators;
        low += stride * (rest % n);
        stride *= n;
        rest /= n;
    }
    Err(Refusal::ArgumentOutside(1))
}

// By how much the product's number grows when the digit of the factor f grows by one.
fn stride_of(g: Group, f: usize) -> u32
    requires { (0 < elements_of (handles g)) × ((elements_of (handles g) ≤ 4294967295) × (f < length (handles g))) }
    ensures { result ≡ stride (sizes (handles g)) f }
{
    let mut s: u32 = 1;
    for i in 0..f {
        s *= group_handles::inner::handle(g, i).elements;
    }
    s
}

// Answers the digit of e in the factor f.
pub fn project_in(g: Group, f: usize, e: GroupElementId) -> Result<GroupElementId, Refusal>
    requires { (0 < elements_of (handles g)) × ((elements_of (handles g) ≤ 4294967295) × (f < length (handles g))) }
    ensures { result ≡ Ok (record { 0 = project (sizes (handles g)) f e.0 }) }
{
    let n = group_handles::inner::size_of(g, f);
    Ok(GroupElementId(e.0 / stride_of(g, f) % n))
}

// Answers the element whose digit in the factor f is x, and 0 in the others.
pub fn inject_in(g: Group, f: usize, x: GroupElementId) -> Result<GroupElementId, Refusal>
    requires { (0 < elements_of (handles g)) × ((elements_of (handles g) ≤ 4294967295) × ((f < length (handles g)) × (x.0 < get_or (sizes (handles g)) f 1))) }
    ensures { result ≡ Ok (record { 0 = inject (sizes (handles g)) f x.0 }) }
{
    Ok(GroupElementId(stride_of(g, f) * x.0))
}

// Writes the digits of e from place 0 on. Refuses with 4 a list that is short.
pub fn split_in(g: Group, e: GroupElementId, out: &mut [u32]) -> Result<u32, Refusal>
    requires { 0 < elements_of (handles g) }
    ensures { (result ≡ split_tail (handles g) (length out.old)) × (out.new ≡ digits_left (split_tail (handles g) (length out.old)) (sizes (handles g)) e.0 out.old) }
{
    let c = group_handles::inner::listed(g);
    if out.len() < c {
        return Err(Refusal::TooShort);
    }
    let mut rest = e.0;
    for f in 0..c {
        let h = g.factors[f];
        let n = h.elements;
        egg::inner::put(out, f, (rest % n) as usize);
        rest /= n;
    }
    Ok(c as u32)
}

fn fewer(a: usize, b: usize) -> usize
    ensures { (result ≡ fewer a b) × ((result ≤ a) × (result ≤ b)) }
{
    if a <= b { a } else { b }
}

// Refuses with 14 the first digit that is out of range, of those that are there.
pub fn digits_right(g: Group, digits: &[u32]) -> Result<(), Refusal>
    ensures { result ≡ digits_right (sizes (handles g)) digits.now }
{
    let c = fewer(group_handles::inner::listed(g), digits.len());
    for f in 0..c {
        if group_handles::inner::size_of(g, f) <= egg::inner::get(digits, f) {
            return Err(Refusal::ArgumentOutside(f as u32));
        }
    }
    Ok(())
}

// Refuses with 15 a product too large, then with 4 a list that is short; else adds up each digit times its stride. `elements` is how many the product
// has, as far as 32 bits can tell: who calls has looked at the handles already.
pub fn join_in(g: Group, elements: u64, digits: &[u32]) -> Result<GroupElementId, Refusal>
    requires { (0 < elements_of (handles g)) × ((elements ≡ capped (elements_of (handles g))) × (digits_right (sizes (handles g)) digits.now ≡ (Ok tt))) }
    ensures { result ≡ join_tail g digits.now }
{
    if 8 < g.count {
        return Err(Refusal::TooLarge);
    }
    if 4294967295 < elements {
        return Err(Refusal::TooLarge);
    }
    let c = group_handles::inner::listed(g);
    if digits.len() < c {
        return Err(Refusal::TooShort);
    }
    let mut stride: u32 = 1;
    let mut sum: u32 = 0;
    for f in 0..c {
        let h = g.factors[f];
        sum += stride * egg::inner::get(digits, f);
        stride *= h.elements;
    }
    Ok(GroupElementId(sum))
}
