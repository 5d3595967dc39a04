// The work of `period`, done once the handles are known to fit and the product's elements to have numbers of 32 bits.
ghost use Rattle.std.specs.Prelude.{◌≡◌, true, ◌≤◌, length};
ghost use Rattle.factor_questions.specs.Walks.{compose_in};
ghost use Rattle.theory_radix.specs.Divisors.{gcd};
ghost use Rattle.group_handles.specs.Handles.{handles, elements_of, all_fit};
ghost use Rattle.group_periods.specs.Periods.{period_from, periods};

use egg::{GroupElementId, Refusal};
use group_handles::Group;

// Euclid's greatest common divisor, for the least common multiple.
fn gcd(a: u32, b: u32) -> u32
    ensures { result ≡ gcd a b }
{
    let mut x = a;
    let mut y = b;
    while 0 < y {
        let r = x % y;
        x = y;
        y = r;
    }
    x
}

// Walks the powers of a in one factor, up to the `count`-th, to the first that is the identity; refuses with 17 where there is none.
fn period_in(s: &[u32], n: u8, count: u32, a: GroupElementId) -> Result<u32, Refusal>
    ensures { result ≡ period_from count (compose_in s.now n count) a.0 a.0 1 }
{
    let mut x = a;
    for i in 0..count {
        if x.0 == 0 {
            return Ok(i + 1);
        }
        x = factor_compose::inner::compose_elements(s, n, count, x, a)?;
    }
    Err(Refusal::Unreadable)
}

// Answers the least common multiple of the periods of the digits.
pub fn periods(table: &[u32], g: Group, a: GroupElementId) -> Result<u32, Refusal>
    requires { (all_fit (length table.now) (handles g) ≡ true) × (elements_of (handles g) ≤ 4294967295) }
    ensures { result ≡ periods table.now (handles g) a.0 }
{
    let c = group_handles::inner::listed(g);
    let mut m: u32 = 1;
    let mut rest = a.0;
    for f in 0..c {
        let h = g.factors[f];
        let n = h.elements;
        let p = period_in(
            egg::inner::part(table, h),
            h.generators,
            n,
            GroupElementId(rest % n),
        )?;
        m = m / gcd(m, p) * p;
        rest /= n;
    }
    Ok(m)
}
