// A program that names factors as the caption desk does, however they are made, and prints the joined names of products of them; and what is refused.
#![tactic(auto)]

use builder::Builder;
use egg::{Factor, GeneratorId, GroupElementId, Refusal};
use names_values::{Name, Named, NamedBuilder, NamedGroup};
use std::io;

fn write_number(rt: &impl Print, x: u32) -> io::Result<()> {
    print!(rt; " {x}")
}

fn write_count(rt: &impl Print, answer: Result<u32, Refusal>) -> io::Result<()> {
    match answer {
        Ok(k) => write_number(rt, k),
        Err(why) => {
            rt.write_all(b" refused")?;
            write_number(rt, why.number())
        }
    }
}

// What a call that makes something answers: 0, or its refusal.
fn write_verdict(rt: &impl Print, label: &[u8], answer: Result<(), Refusal>) -> io::Result<()> {
    rt.write_all(label)?;
    match answer {
        Ok(()) => write_number(rt, 0)?,
        Err(why) => {
            rt.write_all(b" refused")?;
            write_number(rt, why.number())?;
        }
    }
    rt.write_all(b"\n")
}

fn write_made(rt: &impl Print, label: &[u8], made: Result<Named, Refusal>) -> io::Result<()> {
    match made {
        Ok(_) => write_verdict(rt, label, Ok(())),
        Err(why) => write_verdict(rt, label, Err(why)),
    }
}

// Writes the joined name of a product into a buffer: prints what is answered and what the buffer holds then, and the part that is handed back.
fn write_name(
    rt: &impl Print,
    label: &[u8],
    table: &[u32],
    g: NamedGroup,
    out: &mut [u8],
) -> io::Result<()> {
    rt.write_all(label)?;
    write_count(rt, names::write_joined(table, g, out))?;
    rt.write_all(b" [")?;
    rt.write_all(&out[..])?;
    rt.write_all(b"] [")?;
    let part = names::joined(table, g, out);
    rt.write_all(&part[..])?;
    rt.write_all(b"]\n")
}

fn write_factor(rt: &impl Print, label: &[u8], table: &[u32], f: Named) -> io::Result<()> {
    let mut buffer = [46u8; 8];
    write_name(rt, label, table, names::of(f), &mut buffer)
}

// A product of two, as it is given on. All that are asked for are accepted; of no factors where one is not.
fn times(table: &[u32], a: NamedGroup, b: NamedGroup) -> NamedGroup {
    match names::product(table, a, b) {
        Ok(product) => product,
        Err(_) => names::trivial(),
    }
}

// The name with another length, as only an altered record has it.
fn forged(f: Named, length: u8) -> Named {
    let bytes = f.name.bytes;
    let name = Name { bytes, length };
    Named {
        factor: f.factor,
        name,
    }
}

// The joined names of products: into just its length, one byte less, and more; of none, of eight, and of a factor whose handle fits no buffer; with an
// empty name between; and forged. Nine factors are no product.
fn write_products(
    rt: &impl Print,
    table: &[u32],
    s3: Named,
    z2: Named,
    z3: Named,
) -> io::Result<()> {
    let pair = times(table, names::of(s3), names::of(z2));
    let mut long = [46u8; 9];
    write_name(rt, b"longer", table, pair, &mut long)?;
    let mut right = [46u8; 7];
    write_name(rt, b"right", table, pair, &mut right)?;
    let mut short = [46u8; 6];
    write_name(rt, b"short", table, pair, &mut short)?;
    write_name(rt, b"none", table, names::trivial(), &mut [])?;
    let gap = times(table, pair, names::of(names::unnamed(z2.factor)));
    let mut between = [46u8; 16];
    write_name(
        rt,
        b"between",
        table,
        times(table, gap, names::of(z3)),
        &mut between,
    )?;
    let two = times(table, names::of(z2), names::of(z2));
    let four = times(table, two, two);
    let eight = times(table, four, four);
    let mut many = [46u8; 37];
    write_name(rt, b"eight", table, eight, &mut many)?;
    match names::product(table, eight, names::of(z2)) {
        Ok(_) => write_verdict(rt, b"nine", Ok(()))?,
        Err(why) => write_verdict(rt, b"nine", Err(why))?,
    }
    let misfit = Factor {
        start: 0,
        room: 0,
        generators: 0,
        elements: 0,
    };
    write_name(
        rt,
        b"nine",
        table,
        names::of(names::unnamed(misfit)),
        &mut many,
    )?;
    write_factor(rt, b"thirty-two", table, forged(s3, 32))?;
    write_factor(rt, b"thirty-three", table, forged(s3, 33))
}

// A factor read from the image of another, one flattened, and a subgroup's: all with the empty name.
fn write_unnamed(rt: &impl Print, table: &[u32], s3: Named) -> io::Result<()> {
    let mut bytes = [0u8; 32];
    let mut own = [0u32; 48];
    let mut work = [0u32; 192];
    let _ = image::write(table, s3.factor, &mut bytes);
    if let Ok(read) = names::read(&bytes, &mut own, 0, &mut work) {
        write_factor(rt, b"read", &own, read)?;
    }
    if let Ok(flat) = names::flatten(table, names::of(s3), &mut own, 0, &mut work, 6) {
        write_factor(rt, b"flattened", &own, flat)?;
    }
    write_part(rt, table, s3.factor)
}

fn write_part(rt: &impl Print, table: &[u32], handle: Factor) -> io::Result<()> {
    let mut own = [0u32; 12];
    let mut work = [0u32; 20];
    let mut inn = [0u32; 6];
    let mut outw = [0u32; 2];
    let made = subgroup::from_generators(
        table,
        group::of(handle),
        &[1],
        &mut own,
        0,
        &mut work,
        &mut inn,
        &mut outw,
        2,
    );
    match made {
        Ok(s) => write_factor(rt, b"subgroup", &own, names::unnamed(s.factor)),
        Err(why) => write_verdict(rt, b"subgroup", Err(why)),
    }
}

// The steps of the group of three elements.
fn stepped(table: &mut [u32], b: Builder) -> Builder {
    let turn = GeneratorId(0);
    let one = builder::add_successor(table, b, GroupElementId(0), turn);
    let two = builder::add_successor(table, one.builder, GroupElementId(1), turn);
    let last = two.builder;
    let _ = builder::set_successor(table, last, GroupElementId(2), turn, GroupElementId(0));
    last
}

// That group, built step by step: the builder's calls are given the builder, and the name goes along.
fn built(table: &mut [u32], work: &mut [u32]) -> Result<Named, Refusal> {
    let begun = names::begin(table, 60, 3, 1, b"Z3")?;
    let builder = stepped(table, begun.builder);
    let name = begun.name;
    names::build(table, NamedBuilder { builder, name }, work)
}

// A name of 32 bytes, and a longer one: refused before the build.
fn write_long(rt: &impl Print, table: &mut [u32], work: &mut [u32], long: &[u8]) -> io::Result<()> {
    let most = b"a name of just thirty-two bytes!";
    write_made(
        rt,
        b"most",
        names::enumerate(table, 0, work, &[3], 2, 6, most),
    )?;
    write_made(
        rt,
        b"long",
        names::enumerate(table, 0, work, &[3], 2, 6, long),
    )
}

// With the longer name more generators than there may be, and rows that no group has.
fn write_longer(
    rt: &impl Print,
    table: &mut [u32],
    work: &mut [u32],
    long: &[u8],
) -> io::Result<()> {
    write_made(
        rt,
        b"many",
        names::enumerate(table, 0, work, &[3], 9, 6, long),
    )?;
    write_made(
        rt,
        b"wrong",
        names::from_composed(table, 0, work, &[1, 1], 1, 2, long),
    )
}

// With the longer name no room.
fn write_unbegun(rt: &impl Print, table: &mut [u32], long: &[u8]) -> io::Result<()> {
    match names::begin(table, 0, 0, 1, long) {
        Ok(_) => write_verdict(rt, b"begun", Ok(())),
        Err(why) => write_verdict(rt, b"begun", Err(why)),
    }
}

fn write_refused(rt: &impl Print, table: &mut [u32], work: &mut [u32]) -> io::Result<()> {
    let long = b"a name of more than thirty-two by";
    write_long(rt, table, work, long)?;
    write_longer(rt, table, work, long)?;
    write_unbegun(rt, table, long)
}

fn main(rt: HostRuntime) -> io::Result<()> {
    let mut table = [0u32; 78];
    let mut work = [0u32; 192];
    write_refused(&rt, &mut table, &mut work)?;
    let Ok(s3) = names::enumerate(&mut table, 0, &mut work, &[3], 2, 6, b"S3") else {
        return rt.write_all(b"no S3\n");
    };
    let Ok(z2) = names::from_composed(&mut table, 48, &mut work, &[1, 0], 1, 2, b"Z2") else {
        return rt.write_all(b"no Z2\n");
    };
    let Ok(z3) = built(&mut table, &mut work) else {
        return rt.write_all(b"no Z3\n");
    };
    write_factor(&rt, b"orders", &table, s3)?;
    write_factor(&rt, b"rows", &table, z2)?;
    write_factor(&rt, b"built", &table, z3)?;
    write_unnamed(&rt, &table, s3)?;
    write_products(&rt, &table, s3, z2, z3)
}
