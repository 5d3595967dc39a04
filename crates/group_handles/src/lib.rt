// Direct products as values, and how they are made, from group.rs. A product is up to eight handles of factors that stand in one table buffer, the
// fastest digit first.
#![tactic(auto)]

ghost use Rattle.std.specs.Prelude.{◌≡◌, [], ◌∷◌, length};
ghost use Rattle.group_handles.specs.Handles.{group_of, joins};

use egg::{Factor, Refusal};

pub mod inner;

// A product: its factors, of which only the first `count` are looked at.
#[derive(Clone, Copy)]
pub struct Group {
    pub factors: [Factor; 8],
    pub count: u8,
}

// The group of one element: the product of no factors.
pub fn trivial() -> Group
    ensures { result ≡ group_of [] }
{
    Group {
        factors: [build_lending::inner::no_factor(); 8],
        count: 0,
    }
}

// One factor as a product.
pub fn of(f: Factor) -> Group
    ensures { result ≡ group_of (f ∷ []) }
{
    let none = build_lending::inner::no_factor();
    let factors = [f, none, none, none, none, none, none, none];
    Group { factors, count: 1 }
}

// Answers the product of two: the factors of the first, then those of the second. Refuses in this order: 17 for a handle that does not fit, 15 for
// more than 8 factors or more than 4,294,967,295 elements.
pub fn product(table: &[u32], a: Group, b: Group) -> Result<Group, Refusal>
    ensures { result ≡ joins (length table.now) a b }
{
    let first = inner::look(table, a);
    if !first.fit {
        return Err(Refusal::Unreadable);
    }
    let second = inner::look(table, b);
    if !second.fit {
        return Err(Refusal::Unreadable);
    }
    if 8 < a.count {
        return Err(Refusal::TooLarge);
    }
    if 8 < b.count {
        return Err(Refusal::TooLarge);
    }
    let k = inner::listed(a) + inner::listed(b);
    if 8 < k {
        return Err(Refusal::TooLarge);
    }
    let group = inner::joined(a, b);
    let whole = inner::look(table, group);
    if 4294967295 < whole.elements {
        return Err(Refusal::TooLarge);
    }
    Ok(group)
}
