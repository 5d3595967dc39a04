// What the calls with a name test and answer beside the calls without one.
ghost use Rattle.std.specs.Prelude.{◌≡◌, ◌++◌, ◌≤◌, length, get_or};
ghost use Rattle.names_values.specs.Names.{no_name};
ghost use Rattle.names_joined.specs.Joined.{listed_names};
ghost use Rattle.names.specs.Arguments.{composed_right, enumerate_right, begin_right};
ghost use Rattle.names.specs.Products.{eight_names};

use egg::Refusal;
use names_values::{Name, NamedGroup};

// Refuses what `factor::from_composed` refuses before its build, by the lengths of its lists: 1, then 4.
pub fn composed_right(
    table: usize,
    start: usize,
    work: usize,
    rows: usize,
    n: u8,
    room: u32,
) -> Result<(), Refusal>
    ensures { result ≡ composed_right table start work rows n room }
{
    if 8 < n {
        return Err(Refusal::TooManyGenerators(n as u32));
    }
    if !build_lending::inner::lent_right(table, start, work, room, n) {
        return Err(Refusal::TooShort);
    }
    if rows < (room as usize) * (n as usize) {
        return Err(Refusal::TooShort);
    }
    Ok(())
}

// Refuses what `enumeration::enumerate` refuses before its build: 1, then 2 and 3, then 4.
pub fn enumerate_right(
    table: usize,
    start: usize,
    work: usize,
    orders: &[u32],
    n: u8,
    room: u32,
) -> Result<(), Refusal>
    ensures { result ≡ enumerate_right table start work orders.now n room }
{
    if 8 < n {
        return Err(Refusal::TooManyGenerators(n as u32));
    }
    factor_relations::inner::orders_right(orders, n)?;
    if !build_lending::inner::lent_right(table, start, work, room, n) {
        return Err(Refusal::TooShort);
    }
    Ok(())
}

// Refuses what `builder::begin` refuses: 1, then 4.
pub fn begin_right(table: usize, start: usize, room: u32, n: u8) -> Result<(), Refusal>
    ensures { result ≡ begin_right table start room n }
{
    if 8 < n {
        return Err(Refusal::TooManyGenerators(n as u32));
    }
    if !egg::has_room(table, start, room, n) {
        return Err(Refusal::TooShort);
    }
    Ok(())
}

// The name of the factor f; where there is none, the empty one.
fn name_at(g: NamedGroup, f: usize) -> Name
    ensures { result ≡ get_or (listed_names g) f no_name }
{
    if f < names_joined::inner::names_listed(g) {
        return g.names[f];
    }
    names_values::no_name()
}

// The name at i in the list of both: the names of a, then those of b.
fn either(a: NamedGroup, b: NamedGroup, i: usize) -> Name
    ensures { result ≡ get_or (listed_names a ++ listed_names b) i no_name }
{
    let k = names_joined::inner::names_listed(a);
    if i < k {
        return name_at(a, i);
    }
    name_at(b, i - k)
}

// The names of a and then those of b, at eight places.
pub fn both_names(a: NamedGroup, b: NamedGroup) -> [Name; 8]
    requires { length (listed_names a ++ listed_names b) ≤ 8 }
    ensures { result ≡ eight_names (listed_names a ++ listed_names b) }
{
    [
        either(a, b, 0),
        either(a, b, 1),
        either(a, b, 2),
        either(a, b, 3),
        either(a, b, 4),
        either(a, b, 5),
        either(a, b, 6),
        either(a, b, 7),
    ]
}
