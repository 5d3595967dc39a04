// Fills the rows of a build by generators, once the overgroup's handles are known to fit: by products of any number of factors, or by one factor's
// own handle.
ghost use Rattle.std.specs.Prelude.{◌≡◌, true, [], ◌∷◌, ◌<◌, ◌≤◌, length};
ghost use Rattle.egg.specs.Factor.{fits_in, stretch};
ghost use Rattle.build_reading.specs.Reading.{Placed};
ghost use Rattle.group_handles.specs.Handles.{handles, elements_of, all_fit};
ghost use Rattle.build_numbering.specs.Renumber.{Mapped, map_row, map_rows};
ghost use Rattle.subgroup_one_factor.specs.Letters.{Letters};
ghost use Rattle.subgroup_rows.specs.Rows.{product_by};

use egg::{Factor, GeneratorId, GroupElementId, Refusal};
use group_handles::Group;

// Fills one row: the products of the element that stands at e with the elements of the generators.
fn product_row(
    t: &mut [u32],
    inn: &mut [u32],
    outw: &mut [u32],
    from: &[u32],
    over: Group,
    gens: &[u32],
    n: u8,
    room: u32,
    e: GroupElementId,
    first: u32,
) -> Result<u32, Refusal>
    requires { (all_fit (length from.now) (handles over) ≡ true) × (elements_of (handles over) ≤ 4294967295) }
    ensures { Mapped.mapped (Placed.placed result t.new) inn.new outw.new ≡ map_row n (product_by from.now (handles over) gens.now) n room e.0 0 first t.old inn.old outw.old }
{
    let mut count = first;
    for g in 0..n {
        let at = egg::inner::get(&outw[..], e.0 as usize);
        let by = egg::inner::get(gens, g as usize);
        let x = group_digits::inner::compose_digits(
            from,
            over,
            GroupElementId(at),
            GroupElementId(by),
        )?;
        count = build_numbering::inner::place(t, inn, outw, n, room, count, e, GeneratorId(g), x)?;
    }
    Ok(count)
}

// Fills the rows in the order of their elements, as long as there is a next element.
fn product_rows(
    t: &mut [u32],
    inn: &mut [u32],
    outw: &mut [u32],
    from: &[u32],
    over: Group,
    gens: &[u32],
    n: u8,
    room: u32,
) -> Result<u32, Refusal>
    requires { (all_fit (length from.now) (handles over) ≡ true) × (elements_of (handles over) ≤ 4294967295) }
    ensures { Mapped.mapped (Placed.placed result t.new) inn.new outw.new ≡ map_rows room (product_by from.now (handles over) gens.now) n room 0 1 t.old inn.old outw.old }
{
    let mut count: u32 = 1;
    for e in 0..room {
        if count <= e {
            return Ok(count);
        }
        count = product_row(
            t,
            inn,
            outw,
            from,
            over,
            gens,
            n,
            room,
            GroupElementId(e),
            count,
        )?;
    }
    Ok(count)
}

// Fills the same row where the overgroup is one factor: its handle is 24 bytes, and the 200 bytes of a product would be copied at each place. What
// stands at e is read once, since new elements come behind it.
fn factor_row(
    t: &mut [u32],
    inn: &mut [u32],
    outw: &mut [u32],
    from: &[u32],
    f: Factor,
    gens: &[u32],
    letters: &[u32],
    n: u8,
    room: u32,
    e: GroupElementId,
    first: u32,
) -> Result<u32, Refusal>
    requires { ((fits_in (length from.now) f ≡ true) × Letters (stretch from.now f) f.generators f.elements gens.now letters.now) × (e.0 < first) }
    ensures { Mapped.mapped (Placed.placed result t.new) inn.new outw.new ≡ map_row n (product_by from.now (f ∷ []) gens.now) n room e.0 0 first t.old inn.old outw.old }
{
    let at = egg::inner::get(&outw[..], e.0 as usize);
    let mut count = first;
    for g in 0..n {
        let by = egg::inner::get(gens, g as usize);
        let letter = egg::inner::get(letters, g as usize);
        let x = subgroup_one_factor::inner::letter_product(
            from,
            f,
            GroupElementId(at),
            GroupElementId(by),
            letter,
        )?;
        count = build_numbering::inner::place(t, inn, outw, n, room, count, e, GeneratorId(g), x)?;
    }
    Ok(count)
}

// Fills the rows in order, with the letters of the generators known.
fn lettered_rows(
    t: &mut [u32],
    inn: &mut [u32],
    outw: &mut [u32],
    from: &[u32],
    f: Factor,
    gens: &[u32],
    letters: &[u32],
    n: u8,
    room: u32,
) -> Result<u32, Refusal>
    requires { (fits_in (length from.now) f ≡ true) × Letters (stretch from.now f) f.generators f.elements gens.now letters.now }
    ensures { Mapped.mapped (Placed.placed result t.new) inn.new outw.new ≡ map_rows room (product_by from.now (f ∷ []) gens.now) n room 0 1 t.old inn.old outw.old }
{
    let mut count: u32 = 1;
    for e in 0..room {
        if count <= e {
            return Ok(count);
        }
        count = factor_row(
            t,
            inn,
            outw,
            from,
            f,
            gens,
            letters,
            n,
            room,
            GroupElementId(e),
            count,
        )?;
    }
    Ok(count)
}

// Finds the letters and fills the rows. A generator is often an element of one letter, and then a product with it is a step: for that the letters are
// found once. B6 by five generators takes 0.60 ms with them and 0.86 without.
fn factor_rows(
    t: &mut [u32],
    inn: &mut [u32],
    outw: &mut [u32],
    from: &[u32],
    f: Factor,
    gens: &[u32],
    n: u8,
    room: u32,
) -> Result<u32, Refusal>
    requires { fits_in (length from.now) f ≡ true }
    ensures { Mapped.mapped (Placed.placed result t.new) inn.new outw.new ≡ map_rows room (product_by from.now (f ∷ []) gens.now) n room 0 1 t.old inn.old outw.old }
{
    let mut letters = [0; 8];
    subgroup_one_factor::inner::find_letters(
        egg::inner::part(from, f),
        f.generators,
        f.elements,
        gens,
        &mut letters,
    );
    lettered_rows(t, inn, outw, from, f, gens, &letters[..], n, room)
}

// Fills the rows, by the quicker way where the overgroup has one factor.
pub fn rows_of(
    t: &mut [u32],
    inn: &mut [u32],
    outw: &mut [u32],
    from: &[u32],
    over: Group,
    gens: &[u32],
    n: u8,
    room: u32,
) -> Result<u32, Refusal>
    requires { (all_fit (length from.now) (handles over) ≡ true) × (elements_of (handles over) ≤ 4294967295) }
    ensures { Mapped.mapped (Placed.placed result t.new) inn.new outw.new ≡ map_rows room (product_by from.now (handles over) gens.now) n room 0 1 t.old inn.old outw.old }
{
    if group_handles::inner::listed(over) == 1 {
        let f = group_handles::inner::handle(over, 0);
        return factor_rows(t, inn, outw, from, f, gens, n, room);
    }
    product_rows(t, inn, outw, from, over, gens, n, room)
}
