// Factors and products with their names, from the labels of abstract_group.rs and group.rs. A call here is the call without a name, with
// the name beside what that one makes; only `write_joined` and `joined` look at a name. Every other question is asked by the handle
// (`named.factor`, `product.group`, `begun.builder`), of a type that holds no name.
#![tactic(auto)]

ghost use Rattle.std.specs.Prelude.{◌≡◌, [], length};
ghost use Rattle.builder.specs.Calls.{Leaving};
ghost use Rattle.group_handles.specs.Handles.{group_of};
ghost use Rattle.names.specs.Making.{NamedMaking, named_composed, named_enumerates, named_begins, named_builds, named_read, named_flat};
ghost use Rattle.names.specs.Products.{with_names, product_of_one, named_joins};
ghost use Rattle.names.specs.Joined.{joined_answer, joined_leaves, joined_part};

use egg::Refusal;
use group_handles::inner::Limit;
pub use names_values::{Name, Named, NamedBuilder, NamedGroup, no_name, unnamed};

pub mod inner;

// Makes a factor from composed numbers as `factor::from_composed` does, with a name. Refuses as that one does, and after its 1 and 4, before
// the build, with 18 a name of more than 32 bytes; no buffer is touched then.
pub fn from_composed(
    table: &mut [u32],
    start: usize,
    work: &mut [u32],
    rows: &[u32],
    n: u8,
    room: u32,
    name: &[u8],
) -> Result<Named, Refusal>
    ensures { NamedMaking.named_making result table.new work.new ≡ named_composed table.old start work.old rows.now n room name.now }
{
    if 32 < name.len() {
        inner::composed_right(table.len(), start, work.len(), rows.len(), n, room)?;
        return Err(Refusal::NameLength);
    }
    let factor = factor::from_composed(table, start, work, rows, n, room)?;
    Ok(Named {
        factor,
        name: names_values::inner::name_of(name),
    })
}

// Makes a factor of the group that the pair orders present as `enumeration::enumerate` does, with a name. Refuses as that one does, and after
// its 1 to 4, before the build, with 18 a name of more than 32 bytes; no buffer is touched then.
pub fn enumerate(
    table: &mut [u32],
    start: usize,
    work: &mut [u32],
    orders: &[u32],
    n: u8,
    room: u32,
    name: &[u8],
) -> Result<Named, Refusal>
    ensures { NamedMaking.named_making result table.new work.new ≡ named_enumerates table.old start work.old orders.now n room name.now }
{
    if 32 < name.len() {
        inner::enumerate_right(table.len(), start, work.len(), orders, n, room)?;
        return Err(Refusal::NameLength);
    }
    let factor = enumeration::enumerate(table, start, work, orders, n, room)?;
    Ok(Named {
        factor,
        name: names_values::inner::name_of(name),
    })
}

// Begins a build as `builder::begin` does, of a factor with a name. Refuses as that one does, and then with 18 a name of more than 32 bytes; no
// buffer is touched then.
pub fn begin(
    table: &mut [u32],
    start: usize,
    room: u32,
    n: u8,
    name: &[u8],
) -> Result<NamedBuilder, Refusal>
    ensures { Leaving.leaving result table.new ≡ named_begins table.old start room n name.now }
{
    if 32 < name.len() {
        inner::begin_right(table.len(), start, room, n)?;
        return Err(Refusal::NameLength);
    }
    let builder = builder::begin(table, start, room, n)?;
    Ok(NamedBuilder {
        builder,
        name: names_values::inner::name_of(name),
    })
}

// Makes a factor of what was built, as `builder::build` does. It has the name that the build was begun with.
pub fn build(table: &mut [u32], b: NamedBuilder, work: &mut [u32]) -> Result<Named, Refusal>
    ensures { NamedMaking.named_making result table.new work.new ≡ named_builds table.old b work.old }
{
    let factor = builder::build(table, b.builder, work)?;
    Ok(Named {
        factor,
        name: b.name,
    })
}

// Reads a factor from an image, as `image::read` does. It has the empty name.
pub fn read(
    image: &[u8],
    table: &mut [u32],
    start: usize,
    work: &mut [u32],
) -> Result<Named, Refusal>
    ensures { NamedMaking.named_making result table.new work.new ≡ named_read image.now table.old start work.old }
{
    let factor = image::read(image, table, start, work)?;
    Ok(unnamed(factor))
}

// Builds one factor that is the product, as `group::flatten` does. It has the empty name.
pub fn flatten(
    from: &[u32],
    g: NamedGroup,
    table: &mut [u32],
    start: usize,
    work: &mut [u32],
    room: u32,
) -> Result<Named, Refusal>
    ensures { NamedMaking.named_making result table.new work.new ≡ named_flat from.now g table.old start work.old room }
{
    let factor = group::flatten(from, g.group, table, start, work, room)?;
    Ok(unnamed(factor))
}

// The group of one element: the product of no factors, with no names.
pub fn trivial() -> NamedGroup
    ensures { result ≡ with_names (group_of []) [] }
{
    NamedGroup {
        group: group_handles::trivial(),
        names: [no_name(); 8],
    }
}

// One factor as a product.
pub fn of(f: Named) -> NamedGroup
    ensures { result ≡ product_of_one f }
{
    let mut names = [no_name(); 8];
    names[0] = f.name;
    NamedGroup {
        group: group_handles::of(f.factor),
        names,
    }
}

// Answers the product of two as `group::product` does, with the names of the first and then those of the second. Refuses as that one does.
pub fn product(table: &[u32], a: NamedGroup, b: NamedGroup) -> Result<NamedGroup, Refusal>
    ensures { result ≡ named_joins (length table.now) a b }
{
    let group = group_handles::product(table, a.group, b.group)?;
    Ok(NamedGroup {
        group,
        names: inner::both_names(a, b),
    })
}

// Writes the joined name of a product, the names of its factors in order with " x " between each two, to the start of a lent byte buffer, and
// answers its length. Refuses in this order: 17 for a handle that does not fit or a recorded length above 32, 15 for a product too large, 18 for
// a buffer shorter than the joined name.
pub fn write_joined(table: &[u32], g: NamedGroup, out: &mut [u8]) -> Result<u32, Refusal>
    ensures { (result ≡ joined_answer table.now g (length out.old)) × (out.new ≡ joined_leaves table.now g out.old) }
{
    let k = names_joined::inner::joined_length(g)?;
    group_handles::inner::admit_one(table, g.group, 0, Limit::Number(1))?;
    if out.len() < (k as usize) {
        return Err(Refusal::NameLength);
    }
    names_joined::inner::write(g, out);
    Ok(k)
}

// The same as `write_joined`, but hands back the filled part of the buffer. Where it refuses this is the empty start, and `write_joined` tells
// the number.
pub fn joined<'a>(table: &[u32], g: NamedGroup, out: &'a mut [u8]) -> &'a mut [u8]
    ensures { result.now ≡ joined_part table.now g out.old }
{
    match write_joined(table, g, out) {
        Ok(len) => &mut out[..len as usize],
        Err(_) => &mut out[..0],
    }
}
