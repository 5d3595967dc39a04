// The work of `powi`, done once the handles are known to fit and the product's elements to have numbers of 32 bits.
ghost use Rattle.std.specs.Prelude.{◌≡◌, true, ◌≤◌, length};
ghost use Rattle.group_handles.specs.Handles.{handles, elements_of, all_fit};
ghost use Rattle.group_digits.specs.Digits.{composes, inverts};
ghost use Rattle.group_powers.specs.Powers.{by_halving, powers};

use egg::{GroupElementId, Refusal};
use group_handles::Group;

pub mod one;

// The least exponent, i32::MIN.
const LEAST: i32 = -2147483648;

// The k-th power: the square of the power by half of k, and once more the element where k is odd.
pub fn power(table: &[u32], g: Group, a: GroupElementId, k: u32) -> Result<GroupElementId, Refusal>
    requires { (all_fit (length table.now) (handles g) ≡ true) × (elements_of (handles g) ≤ 4294967295) }
    ensures { result ≡ by_halving k (composes table.now (handles g)) a.0 k }
{
    if k == 0 {
        return Ok(GroupElementId(0));
    }
    let x = power(table, g, a, k / 2)?;
    let y = group_digits::inner::compose_digits(table, g, x, x)?;
    if k % 2 == 0 {
        return Ok(y);
    }
    group_digits::inner::compose_digits(table, g, y, a)
}

// A negative exponent hands on to the inverse's power; the least has no negation, and squares the power by half of it.
pub fn powi_in(
    table: &[u32],
    g: Group,
    a: GroupElementId,
    i: i32,
) -> Result<GroupElementId, Refusal>
    requires { (all_fit (length table.now) (handles g) ≡ true) × (elements_of (handles g) ≤ 4294967295) }
    ensures { result ≡ powers 1073741824 (composes table.now (handles g)) (inverts table.now (handles g)) a.0 i }
{
    if 0 <= i {
        return power(table, g, a, i as u32);
    }
    let b = group_digits::inner::inverse_digits(table, g, a)?;
    if i == LEAST {
        let x = power(table, g, b, 1073741824)?;
        return group_digits::inner::compose_digits(table, g, x, x);
    }
    power(table, g, b, (-i) as u32)
}
