// Takes a step, or finds a generator, in a product by one pass over its handles, which are read from the list as they are wanted; a handle that does
// not fit ends the pass. No product is made for it, and a step divides once and not from factor to factor: in a product of two a step takes 146
// instructions and a generator 117, by `group` and a product made of the list 257 and 243.
ghost use Rattle.std.specs.Prelude.{◌≡◌, ◌+◌, ◌*◌, ◌-◌, ◌/◌, ◌%◌, ◌<◌, ◌≤◌};
ghost use Rattle.egg.specs.Table.{pick};
ghost use Rattle.group.specs.Questions.{step_answer, generator_answer};
ghost use Rattle.capi_handles.specs.Product.{product_of};
ghost use Rattle.capi_handles_step.specs.Spots.{Spotted};

use capi_handles::inner::{handle_at, listed};
use egg::inner::chosen;
use egg::{GeneratorId, GroupElementId, Refusal};
use group_handles::inner::{Limit, Seen, admit_seen, times};

// The one or the other without a branch, as `chosen` of egg, for 64 bits.
fn chosen_long(first: bool, x: u64, y: u64) -> u64
    ensures { result ≡ pick first x y }
{
    if first { x } else { y }
}

// What the pass shows for a generator: what the handles have together, and for the factor that has the generator its place, its stride and how many
// generators come before. Where a handle does not fit, only that is shown.
#[derive(Clone, Copy)]
pub struct Spot {
    pub seen: Seen,
    pub at: u32,
    pub stride: u64,
    pub before: u32,
}

// Makes the pass, to the last factor that no more than x generators come before: that one has x, even where factors have no generators.
fn find(table: &[u32], l: &[u32], count: u8, x: u32) -> Spot
    ensures { Spotted table.now l.now count x result }
{
    let c = listed(count);
    let mut elements: u64 = 1;
    let mut generators: u32 = 0;
    let mut at: u32 = 0;
    let mut stride: u64 = 1;
    let mut before: u32 = 0;
    for f in 0..c {
        let h = handle_at(l, f * 5);
        if !egg::fits(table, h) {
            return Spot {
                seen: Seen {
                    fit: false,
                    elements,
                    generators,
                },
                at,
                stride,
                before,
            };
        }
        let here = generators <= x;
        let next = times(elements, h.elements);
        at = chosen(here, f, at);
        stride = chosen_long(here, elements, stride);
        before = chosen(here, generators, before);
        elements = next;
        generators += h.generators as u32;
    }
    Spot {
        seen: Seen {
            fit: true,
            elements,
            generators,
        },
        at,
        stride,
        before,
    }
}

// The digit of e that has the stride s, in a factor of n elements.
fn digit(e: u32, s: u32, n: u32) -> u32
    requires { (0 < s) × (0 < n) }
    ensures { result ≡ e / s % n }
{
    e / s % n
}

// e with y in the place of the digit d.
fn replaced(e: u32, d: u32, y: u32, s: u32) -> u32
    requires { (d * s ≤ e) × (e - d * s + y * s < 4294967296) }
    ensures { result ≡ e - d * s + y * s }
{
    e - d * s + y * s
}

// Answers the step from e by x: as `group::step` of the product.
pub fn step(
    table: &[u32],
    l: &[u32],
    count: u8,
    e: GroupElementId,
    x: GeneratorId,
) -> Result<GroupElementId, Refusal>
    ensures { result ≡ step_answer table.now (product_of l.now count) e x }
{
    if count == 1 {
        return egg::step(table, handle_at(l, 0), e, x);
    }
    let p = find(table, l, count, x.0 as u32);
    admit_seen(
        p.seen,
        count,
        e.0,
        Limit::Elements,
        x.0 as u32,
        Limit::Generators,
    )?;
    let h = handle_at(l, p.at * 5);
    let s = p.stride as u32;
    let d = digit(e.0, s, h.elements);
    let own = (x.0 as u32) - p.before;
    let y = egg::inner::next(
        egg::inner::part(table, h),
        h.generators,
        h.elements,
        GroupElementId(d),
        GeneratorId(own as u8),
    )?;
    Ok(GroupElementId(replaced(e.0, d, y.0, s)))
}

// Answers the step from the identity, with the refusals of a call whose only argument is the generator. Its end is that of `step` with 0 for the
// element; as one function for both, which is put in line, it took 13 instructions more in a step and 17 here. For the same reason `admit_seen` has the
// second argument that is not there, 0 below 1.
pub fn generator(
    table: &[u32],
    l: &[u32],
    count: u8,
    x: GeneratorId,
) -> Result<GroupElementId, Refusal>
    ensures { result ≡ generator_answer table.now (product_of l.now count) x }
{
    if count == 1 {
        return factor::generator(table, handle_at(l, 0), x);
    }
    let p = find(table, l, count, x.0 as u32);
    admit_seen(
        p.seen,
        count,
        x.0 as u32,
        Limit::Generators,
        0,
        Limit::Number(1),
    )?;
    let h = handle_at(l, p.at * 5);
    let s = p.stride as u32;
    let own = (x.0 as u32) - p.before;
    let y = egg::inner::next(
        egg::inner::part(table, h),
        h.generators,
        h.elements,
        GroupElementId(0),
        GeneratorId(own as u8),
    )?;
    Ok(GroupElementId(y.0 * s))
}
