// A program that asks over lists, as a page does that shows many viewers at once, and prints each answer and what the output holds then: of a factor and of a
// product of two, with right lists, a place that is refused, lists of different lengths, of one place and of none, and a handle that fits no buffer.
#![tactic(auto)]

use egg::{Factor, Refusal};
use group_handles::Group;
use lists::ListRefusal;
use std::io;

fn number(rt: &impl Print, x: u32) -> io::Result<()> {
    print!(rt; " {x}")
}

fn write_refusal(rt: &impl Print, why: Refusal) -> io::Result<()> {
    rt.write_all(b" refused")?;
    number(rt, why.number())?;
    for place in why.places() {
        number(rt, place)?;
    }
    Ok(())
}

fn write_answer(rt: &impl Print, said: Result<(), ListRefusal>) -> io::Result<()> {
    match said {
        Ok(()) => rt.write_all(b" fine"),
        Err(ListRefusal::ListsRefused(why)) => write_refusal(rt, why),
        Err(ListRefusal::RefusedAt(at)) => {
            let place = at.place;
            print!(rt; " at {place}")?;
            write_refusal(rt, at.why)
        }
    }
}

fn write_list(rt: &impl Print, list: &[u32]) -> io::Result<()> {
    rt.write_all(b":")?;
    for x in list {
        number(rt, *x)?;
    }
    rt.write_all(b"\n")
}

fn write_listed(
    rt: &impl Print,
    label: &[u8],
    said: Result<(), ListRefusal>,
    out: &[u32],
) -> io::Result<()> {
    rt.write_all(label)?;
    write_answer(rt, said)?;
    write_list(rt, out)
}

// The three questions to a factor. Each gets an output that holds 7 everywhere.
fn compose(
    rt: &impl Print,
    table: &[u32],
    f: Factor,
    a: &[u32],
    b: &[u32],
    out: &mut [u32],
) -> io::Result<()> {
    let said = lists_factor::compose_each(table, f, a, b, out);
    write_listed(rt, b"compose", said, out)
}

fn inverse(
    rt: &impl Print,
    table: &[u32],
    f: Factor,
    a: &[u32],
    out: &mut [u32],
) -> io::Result<()> {
    let said = lists_factor::inverse_each(table, f, a, out);
    write_listed(rt, b"inverse", said, out)
}

fn power(
    rt: &impl Print,
    table: &[u32],
    f: Factor,
    a: &[u32],
    exponents: &[i32],
    out: &mut [u32],
) -> io::Result<()> {
    let said = lists_factor::powi_each(table, f, a, exponents, out);
    write_listed(rt, b"power", said, out)
}

// The same to a product.
fn product_compose(
    rt: &impl Print,
    table: &[u32],
    g: Group,
    a: &[u32],
    b: &[u32],
    out: &mut [u32],
) -> io::Result<()> {
    let said = lists_group::compose_each(table, g, a, b, out);
    write_listed(rt, b"product compose", said, out)
}

fn product_inverse(
    rt: &impl Print,
    table: &[u32],
    g: Group,
    a: &[u32],
    out: &mut [u32],
) -> io::Result<()> {
    let said = lists_group::inverse_each(table, g, a, out);
    write_listed(rt, b"product inverse", said, out)
}

fn product_power(
    rt: &impl Print,
    table: &[u32],
    g: Group,
    a: &[u32],
    exponents: &[i32],
    out: &mut [u32],
) -> io::Result<()> {
    let said = lists_group::powi_each(table, g, a, exponents, out);
    write_listed(rt, b"product power", said, out)
}

fn ask_factor(
    rt: &impl Print,
    table: &[u32],
    f: Factor,
    a: &[u32],
    b: &[u32],
    exponents: &[i32],
) -> io::Result<()> {
    let mut composed = [7u32; 4];
    compose(rt, table, f, a, b, &mut composed)?;
    let mut inverses = [7u32; 4];
    inverse(rt, table, f, a, &mut inverses)?;
    let mut powers = [7u32; 4];
    power(rt, table, f, a, exponents, &mut powers)
}

fn ask_product(
    rt: &impl Print,
    table: &[u32],
    g: Group,
    a: &[u32],
    b: &[u32],
    exponents: &[i32],
) -> io::Result<()> {
    let mut composed = [7u32; 4];
    product_compose(rt, table, g, a, b, &mut composed)?;
    let mut inverses = [7u32; 4];
    product_inverse(rt, table, g, a, &mut inverses)?;
    let mut powers = [7u32; 4];
    product_power(rt, table, g, a, exponents, &mut powers)
}

// With no place, which is fine whatever the handle.
fn ask_nothing(rt: &impl Print, table: &[u32], f: Factor, g: Group) -> io::Result<()> {
    compose(rt, table, f, &[], &[], &mut [])?;
    inverse(rt, table, f, &[], &mut [])?;
    power(rt, table, f, &[], &[], &mut [])?;
    product_compose(rt, table, g, &[], &[], &mut [])?;
    product_inverse(rt, table, g, &[], &mut [])?;
    product_power(rt, table, g, &[], &[], &mut [])
}

// With one place, which the calls ask by itself.
fn ask_one(rt: &impl Print, table: &[u32], f: Factor, g: Group, x: u32, y: u32) -> io::Result<()> {
    compose(rt, table, f, &[x], &[5], &mut [7])?;
    inverse(rt, table, f, &[x], &mut [7])?;
    power(rt, table, f, &[x], &[-1], &mut [7])?;
    product_compose(rt, table, g, &[y], &[35], &mut [7])?;
    product_inverse(rt, table, g, &[y], &mut [7])?;
    product_power(rt, table, g, &[y], &[-1], &mut [7])
}

// What has a negative exponent is of period 3 or 6, so that a power by the other sign would be another element.
fn ask_all(rt: &impl Print, table: &[u32], f: Factor, g: Group) -> io::Result<()> {
    let exponents = [2, -1, 2, -2147483648];
    ask_factor(rt, table, f, &[1, 3, 4, 3], &[3, 1, 5, 5], &exponents)?;
    ask_factor(rt, table, f, &[1, 3, 6, 7], &[3, 8, 5, 5], &exponents)?;
    ask_factor(rt, table, f, &[1, 3, 9], &[3, 1, 5, 5], &exponents)?;
    ask_product(rt, table, g, &[9, 33, 22, 20], &[3, 17, 5, 35], &exponents)?;
    ask_product(rt, table, g, &[9, 33, 36, 37], &[3, 38, 5, 35], &exponents)?;
    ask_product(rt, table, g, &[9, 33, 99], &[3, 17, 5, 35], &exponents)?;
    ask_nothing(rt, table, f, g)?;
    ask_one(rt, table, f, g, 3, 22)?;
    ask_one(rt, table, f, g, 6, 36)
}

fn main(rt: HostRuntime) -> io::Result<()> {
    let mut table = [0u32; 48];
    let mut work = [0u32; 192];
    let rows = [1u32, 2, 0, 3, 4, 0, 5, 1, 2, 5, 3, 4];
    let Ok(f) = factor::from_composed(&mut table, 0, &mut work, &rows, 2, 6) else {
        return rt.write_all(b"no factor\n");
    };
    let Ok(g) = group::product(&table, group::of(f), group::of(f)) else {
        return rt.write_all(b"no product\n");
    };
    ask_all(&rt, &table, f, g)?;
    // In a table that is empty no handle fits, and the lengths come first.
    ask_all(&rt, &[], f, g)
}
