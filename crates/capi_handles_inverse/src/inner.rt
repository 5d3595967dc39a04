// Finds an inverse in a product by one pass over its handles, which are read from the list as they are wanted; a handle that does not fit ends the
// pass. No product is made for it: in a product of two it takes 153 instructions, by `group` and a product made of the list 224.
ghost use Rattle.std.specs.Prelude.{◌≡◌};
ghost use Rattle.group.specs.Questions.{inverse_answer};
ghost use Rattle.capi_handles.specs.Product.{product_of};
ghost use Rattle.capi_handles_inverse.specs.Inverted.{Inverted};

use capi_handles::inner::{handle_at, listed};
use egg::inner::chosen;
use egg::{GroupElementId, Refusal};
use group_handles::inner::{Limit, Seen, admit_seen, both, times};

// What the pass shows for an inverse: all that the handles have together but their generators, whether each digit's inverse is in range, and the sum
// of these, each times its stride. Where a handle does not fit, only that is shown.
#[derive(Clone, Copy)]
pub struct DigitInverses {
    pub seen: Seen,
    pub right: bool,
    pub sum: u64,
}

// Makes the pass.
fn invert_digits(table: &[u32], l: &[u32], count: u8, a: u32) -> DigitInverses
    ensures { Inverted table.now l.now count a result }
{
    let c = listed(count);
    let mut elements: u64 = 1;
    let mut right = true;
    let mut sum: u64 = 0;
    let mut x = a;
    for f in 0..c {
        let h = handle_at(l, f * 5);
        if !egg::fits(table, h) {
            return DigitInverses {
                seen: Seen {
                    fit: false,
                    elements,
                    generators: 0,
                },
                right,
                sum,
            };
        }
        let n = h.elements;
        let i = egg::inner::get(
            egg::inner::part(table, h),
            egg::inner::inverse_at(h.generators, GroupElementId(x % n)),
        );
        let known = i < n;
        right = both(right, known);
        sum += elements * (chosen(known, i, 0) as u64);
        elements = times(elements, n);
        x /= n;
    }
    DigitInverses {
        seen: Seen {
            fit: true,
            elements,
            generators: 0,
        },
        right,
        sum,
    }
}

// Answers the inverse of a: as `group::inverse` of the product. `admit_seen` has 0 below 1 for the second argument that is not there: by
// `admit_one_seen` what was seen is copied once more, 3 instructions.
pub fn inverse(
    table: &[u32],
    l: &[u32],
    count: u8,
    a: GroupElementId,
) -> Result<GroupElementId, Refusal>
    ensures { result ≡ inverse_answer table.now (product_of l.now count) a }
{
    if count == 1 {
        return factor::inverse(table, handle_at(l, 0), a);
    }
    let p = invert_digits(table, l, count, a.0);
    admit_seen(p.seen, count, a.0, Limit::Elements, 0, Limit::Number(1))?;
    if !p.right {
        return Err(Refusal::Unreadable);
    }
    Ok(GroupElementId(p.sum as u32))
}
