// Powers in one factor. The powers of a product split its elements at each halving; a product of one factor has nothing to split.
ghost use Rattle.std.specs.Prelude.{◌≡◌};
ghost use Rattle.factor_questions.specs.Walks.{compose_in, inverse_in};
ghost use Rattle.group_powers.specs.Powers.{by_halving, powers, powi_alone};

use egg::{Factor, GroupElementId, Refusal};

// The least exponent, i32::MIN.
const LEAST: i32 = -2147483648;

// The k-th power: the square of the power by half of k, and once more the element where k is odd.
fn power(s: &[u32], n: u8, count: u32, a: GroupElementId, k: u32) -> Result<GroupElementId, Refusal>
    ensures { result ≡ by_halving k (compose_in s.now n count) a.0 k }
{
    if k == 0 {
        return Ok(GroupElementId(0));
    }
    let x = power(s, n, count, a, k / 2)?;
    let y = factor_compose::inner::compose_elements(s, n, count, x, x)?;
    if k % 2 == 0 {
        return Ok(y);
    }
    factor_compose::inner::compose_elements(s, n, count, y, a)
}

// A negative exponent hands on to the inverse's power; the least has no negation, and squares the power by half of it.
fn powi_in(
    s: &[u32],
    n: u8,
    count: u32,
    a: GroupElementId,
    i: i32,
) -> Result<GroupElementId, Refusal>
    ensures { result ≡ powers 1073741824 (compose_in s.now n count) (inverse_in s.now n count) a.0 i }
{
    if 0 <= i {
        return power(s, n, count, a, i as u32);
    }
    let b = factor_questions::inner::inverse_in(s, n, count, a)?;
    if i == LEAST {
        let x = power(s, n, count, b, 1073741824)?;
        return factor_compose::inner::compose_elements(s, n, count, x, x);
    }
    power(s, n, count, b, (-i) as u32)
}

// Refuses with 17 a handle that does not fit, then with 14 an element out of range, then with 17 a number read that is out of range.
pub fn powi(table: &[u32], f: Factor, a: GroupElementId, i: i32) -> Result<GroupElementId, Refusal>
    ensures { result ≡ powi_alone table.now f a i }
{
    factor::inner::admit(table, f, a, GroupElementId(0))?;
    powi_in(egg::inner::part(table, f), f.generators, f.elements, a, i)
}
