// A program that makes the calls on products and subgroups as a puzzle author does, and prints their answers: of a product of two factors, of one factor
// alone, of none, and of a product with more factors than there may be; of the two maps of a subgroup, its generators and its overgroup; and of the trivial
// subgroup. What is past a range is asked too.
#![tactic(auto)]

use egg::{Factor, GeneratorId, GroupElementId, Refusal};
use group_handles::Group;
use std::io;
use subgroup_build::Subgroup;

// What is asked. `Letter` asks for one letter of a word; `Over` and `Back` ask the two maps of a subgroup.
#[derive(Clone, Copy)]
enum Question {
    Elements,
    Generators,
    Generator,
    Inverse,
    Period,
    Length,
    Step,
    Compose,
    Conjugate,
    Power,
    Letter,
    Over,
    Back,
}

// Exponents around 0, and those at which a 32-bit number cannot be negated or made larger.
fn exponent(i: u8) -> i32 {
    match i {
        0 => 0,
        1 => 1,
        2 => -1,
        3 => 2,
        4 => -2147483648,
        _ => 2147483647,
    }
}

// Gives a count as an element of that number, so that one function writes every answer.
fn counted(c: Result<u32, Refusal>) -> Result<GroupElementId, Refusal> {
    Ok(GroupElementId(c?))
}

// Answers the letter at b of a word, by the call that hands back the filled part of a buffer; from the word's end on 256 and its length, which is
// below 64 here.
fn letter(table: &[u32], g: Group, e: GroupElementId, b: u8) -> Result<GroupElementId, Refusal> {
    let mut buffer = [0u8; 64];
    let part = group::word(table, g, e, &mut buffer);
    let k = b as usize;
    if k < part.len() {
        return Ok(GroupElementId(part[k] as u32));
    }
    Ok(GroupElementId(256 + ((part.len() % 256) as u32)))
}

// Outside of a subgroup is 4,294,967,295, as on paper.
fn inside(x: Result<Option<GroupElementId>, Refusal>) -> Result<GroupElementId, Refusal> {
    Ok(x?.unwrap_or(GroupElementId(4294967295)))
}

// One place of a map of the subgroup that element 1 generates, which is made anew for each question.
fn carried(from: &[u32], g: Group, over: bool, b: u8) -> Result<GroupElementId, Refusal> {
    let mut table = [0u32; 12];
    let mut work = [0u32; 20];
    let mut inn = [0u32; 6];
    let mut outw = [0u32; 2];
    let s = subgroup::from_generators(
        from,
        g,
        &[1],
        &mut table,
        0,
        &mut work,
        &mut inn,
        &mut outw,
        2,
    )?;
    let x = GroupElementId(b as u32);
    if over {
        return subgroup::to_overgroup(from, &table, s, &outw, x);
    }
    inside(subgroup::to_subgroup(from, &table, s, &inn, x))
}

// Asks one question. One with a single argument or none does not look at a.
fn ask(table: &[u32], g: Group, what: Question, a: u8, b: u8) -> Result<GroupElementId, Refusal> {
    let e = GroupElementId(a as u32);
    let f = GroupElementId(b as u32);
    match what {
        Question::Elements => counted(group::element_count(table, g)),
        Question::Generators => counted(group::generator_count(table, g)),
        Question::Generator => group::generator(table, g, GeneratorId(b)),
        Question::Inverse => group::inverse(table, g, f),
        Question::Period => counted(group::period(table, g, f)),
        Question::Length => counted(group::word_length(table, g, f)),
        Question::Step => group::step(table, g, e, GeneratorId(b)),
        Question::Compose => group::compose(table, g, e, f),
        Question::Conjugate => group::conjugate(table, g, e, f),
        Question::Power => group::powi(table, g, e, exponent(b)),
        Question::Letter => letter(table, g, e, b),
        Question::Over => carried(table, g, true, b),
        Question::Back => carried(table, g, false, b),
    }
}

// Prints a space and a number.
fn number(rt: &impl Print, x: u32) -> io::Result<()> {
    print!(rt; " {x}")
}

fn write_answer(rt: &impl Print, answer: Result<GroupElementId, Refusal>) -> io::Result<()> {
    match answer {
        Ok(e) => number(rt, e.0),
        Err(why) => {
            rt.write_all(b" refused")?;
            number(rt, why.number())
        }
    }
}

// Prints the answers for each b below `count`, and ends the line.
fn write_answers(
    rt: &impl Print,
    table: &[u32],
    g: Group,
    what: Question,
    a: u8,
    count: u8,
) -> io::Result<()> {
    rt.write_all(b":")?;
    for b in 0..count {
        write_answer(rt, ask(table, g, what, a, b))?;
    }
    rt.write_all(b"\n")
}

fn write_line(
    rt: &impl Print,
    name: &[u8],
    table: &[u32],
    g: Group,
    what: Question,
    count: u8,
) -> io::Result<()> {
    rt.write_all(name)?;
    write_answers(rt, table, g, what, 0, count)
}

// Prints a line for each a below `lines`.
fn write_lines(
    rt: &impl Print,
    name: &[u8],
    table: &[u32],
    g: Group,
    what: Question,
    lines: u8,
    count: u8,
) -> io::Result<()> {
    for a in 0..lines {
        rt.write_all(name)?;
        number(rt, a as u32)?;
        write_answers(rt, table, g, what, a, count)?;
    }
    Ok(())
}

// Asks a product everything: elements below `e`, generators below `n`.
fn write_group(
    rt: &impl Print,
    name: &[u8],
    table: &[u32],
    g: Group,
    e: u8,
    n: u8,
) -> io::Result<()> {
    rt.write_all(name)?;
    write_line(rt, b"elements", table, g, Question::Elements, 1)?;
    write_line(rt, b"generators", table, g, Question::Generators, 1)?;
    write_line(rt, b"generator", table, g, Question::Generator, n)?;
    write_line(rt, b"inverse", table, g, Question::Inverse, e)?;
    write_line(rt, b"period", table, g, Question::Period, e)?;
    write_line(rt, b"length", table, g, Question::Length, e)?;
    write_lines(rt, b"step", table, g, Question::Step, e, n)?;
    write_lines(rt, b"compose", table, g, Question::Compose, e, e)?;
    write_lines(rt, b"conjugate", table, g, Question::Conjugate, e, e)?;
    write_lines(rt, b"power", table, g, Question::Power, e, 6)?;
    write_lines(rt, b"word", table, g, Question::Letter, e, 5)
}

// The answers of two questions, and the line's end.
fn write_both(
    rt: &impl Print,
    name: &[u8],
    first: Result<GroupElementId, Refusal>,
    second: Result<GroupElementId, Refusal>,
) -> io::Result<()> {
    rt.write_all(name)?;
    write_answer(rt, first)?;
    write_answer(rt, second)?;
    rt.write_all(b"\n")
}

fn write_one(
    rt: &impl Print,
    name: &[u8],
    answer: Result<GroupElementId, Refusal>,
) -> io::Result<()> {
    rt.write_all(name)?;
    write_answer(rt, answer)?;
    rt.write_all(b"\n")
}

// What a call that makes a product answers: 0, or its refusal.
fn grouped(made: Result<Group, Refusal>) -> Result<GroupElementId, Refusal> {
    made?;
    Ok(GroupElementId(0))
}

// More factors than a product may have, which only a forged value says.
fn forged(f: Factor) -> Group {
    let factors = [f, f, f, f, f, f, f, f];
    Group { factors, count: 9 }
}

// The overgroup where the subgroup's own table is short, and where a forged product stands above it.
fn write_refused(
    rt: &impl Print,
    table: &[u32],
    own: &[u32],
    s: Subgroup,
    z2: Factor,
) -> io::Result<()> {
    let more = Subgroup {
        above: forged(z2),
        ..s
    };
    let none = grouped(subgroup::overgroup(table, &own[..0], s));
    let many = grouped(subgroup::overgroup(table, own, more));
    write_both(rt, b"refused:", none, many)
}

// How many generators a subgroup has, and how many with the group of two elements multiplied on below; and all questions to
// the overgroup of that.
fn write_overgroup(
    rt: &impl Print,
    table: &[u32],
    own: &[u32],
    s: Subgroup,
    z2: Factor,
) -> io::Result<()> {
    write_one(
        rt,
        b"generators:",
        counted(subgroup::generator_count(table, own, s)),
    )?;
    let Ok(left) = subgroup::product_left(table, own, group::of(z2), s) else {
        return rt.write_all(b"no product\n");
    };
    write_one(
        rt,
        b"below:",
        counted(subgroup::generator_count(table, own, left)),
    )?;
    let Ok(over) = subgroup::overgroup(table, own, left) else {
        return rt.write_all(b"no overgroup\n");
    };
    write_group(rt, b"overgroup\n", table, over, 13, 4)?;
    write_refused(rt, table, own, left, z2)
}

// The same of the subgroup that element 1 generates.
fn write_subgroup(rt: &impl Print, table: &[u32], s3: Group, z2: Factor) -> io::Result<()> {
    let mut own = [0u32; 12];
    let mut work = [0u32; 20];
    let mut inn = [0u32; 6];
    let mut outw = [0u32; 2];
    let made = subgroup::from_generators(
        table,
        s3,
        &[1],
        &mut own,
        0,
        &mut work,
        &mut inn,
        &mut outw,
        2,
    );
    let Ok(s) = made else {
        return rt.write_all(b"no subgroup\n");
    };
    write_overgroup(rt, table, &own, s, z2)
}

// The maps of the trivial subgroup, how many generators it has, and how many elements its overgroup has.
fn write_maps(
    rt: &impl Print,
    none: &[u32],
    own: &[u32],
    inn: &[u32],
    outw: &[u32],
    s: Subgroup,
) -> io::Result<()> {
    let first = GroupElementId(0);
    let second = GroupElementId(1);
    let over = subgroup::to_overgroup(none, own, s, outw, first);
    let past = subgroup::to_overgroup(none, own, s, outw, second);
    write_both(rt, b"trivial\nover:", over, past)?;
    let back = inside(subgroup::to_subgroup(none, own, s, inn, first));
    let beyond = inside(subgroup::to_subgroup(none, own, s, inn, second));
    write_both(rt, b"back:", back, beyond)?;
    write_one(
        rt,
        b"generators:",
        counted(subgroup::generator_count(none, own, s)),
    )?;
    let Ok(g) = subgroup::overgroup(none, own, s) else {
        return rt.write_all(b"no overgroup\n");
    };
    write_one(rt, b"overgroup:", counted(group::element_count(none, g)))
}

// The buffers of the trivial subgroup hold something else before it is made.
fn write_trivial(rt: &impl Print) -> io::Result<()> {
    let mut own = [9u32; 4];
    let mut work = [9u32; 1];
    let mut inn = [9u32; 1];
    let mut outw = [9u32; 1];
    let Ok(s) = subgroup::trivial(&mut own, 0, &mut work, &mut inn, &mut outw) else {
        return rt.write_all(b"no subgroup\n");
    };
    write_maps(rt, &[], &own, &inn, &outw, s)
}

// Each range is asked up to the first number past it.
fn write_groups(rt: &impl Print, table: &[u32], s3: Group, z2: Factor) -> io::Result<()> {
    let Ok(pair) = group::product(table, s3, group::of(z2)) else {
        return rt.write_all(b"no product\n");
    };
    write_group(rt, b"product\n", table, pair, 13, 4)?;
    write_group(rt, b"alone\n", table, s3, 7, 3)?;
    write_group(rt, b"none\n", table, group::trivial(), 2, 1)?;
    write_group(rt, b"forged\n", table, forged(z2), 1, 1)?;
    write_line(rt, b"subgroup\nover", table, s3, Question::Over, 3)?;
    write_line(rt, b"back", table, s3, Question::Back, 7)?;
    write_subgroup(rt, table, s3, z2)?;
    write_trivial(rt)
}

// Enumerates S3 and the group of two elements into one table, and asks.
fn main(rt: HostRuntime) -> io::Result<()> {
    let mut table = [0u32; 60];
    let mut work = [0u32; 192];
    let Ok(s3) = enumeration::enumerate(&mut table, 0, &mut work, &[3], 2, 6) else {
        return rt.write_all(b"no S3\n");
    };
    let Ok(z2) = enumeration::enumerate(&mut table, 48, &mut work, &[], 1, 2) else {
        return rt.write_all(b"no Z2\n");
    };
    write_groups(&rt, &table, group::of(s3), z2)
}
