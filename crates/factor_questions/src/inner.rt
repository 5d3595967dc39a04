// Products, inverses, conjugates and generators in a factor's own stretch, by walks along recorded words as their
// definition has them. Every number is looked at before it is used.
ghost use Rattle.std.specs.Prelude.{◌≡◌};
ghost use Rattle.factor_questions.specs.Walks.{inverse_in, compose_in, conjugate_in, generator_in};

use egg::{GeneratorId, GroupElementId, Refusal};

// Forward along a word of at most five letters. Back along the word of the inverse the letters come in the order in which they are
// walked, so that none has to be kept; where that word is longer, forward along the element's own.
// Where the first's word is shorter than the second's, back along that from the second's inverse, to the inverse of the
// product.
#[tactic(auto, using(crate::proofs::Walks::compose_own, crate::proofs::Walks::compose_along))]
pub fn compose_with_care(
    s: &[u32],
    n: u8,
    count: u32,
    a: GroupElementId,
    b: GroupElementId,
) -> Result<GroupElementId, Refusal>
    ensures { result ≡ compose_in s.now n count a.0 b.0 }
{
    let len = egg::inner::word_length(s, n, b);
    if len <= 5 {
        return factor_word_walks::inner::along(&s[..], n, count, a, b, len);
    }
    if 4096 < len {
        return Err(Refusal::Unreadable);
    }
    let i = egg::inner::get(s, egg::inner::inverse_at(n, b));
    if count <= i {
        return Err(Refusal::Unreadable);
    }
    let own = egg::inner::word_length(s, n, a);
    if own < len {
        let x = factor_word_walks::inner::back_along(&s[..], n, count, GroupElementId(i), a, own)?;
        return inverse_in(s, n, count, x);
    }
    if 4096 < own {
        return Err(Refusal::Unreadable);
    }
    let back = egg::inner::word_length(s, n, GroupElementId(i));
    if 4096 < back {
        return Err(Refusal::Unreadable);
    }
    if len < back {
        return factor_word_walks::inner::along(&s[..], n, count, a, b, len);
    }
    factor_word_walks::inner::back_along(s, n, count, a, GroupElementId(i), back)
}

// The inverse of a, which stands in its row.
pub fn inverse_in(
    s: &[u32],
    n: u8,
    count: u32,
    a: GroupElementId,
) -> Result<GroupElementId, Refusal>
    ensures { result ≡ inverse_in s.now n count a.0 }
{
    let i = egg::inner::get(s, egg::inner::inverse_at(n, a));
    if count <= i {
        return Err(Refusal::Unreadable);
    }
    Ok(GroupElementId(i))
}

// The conjugate a·b·a⁻¹, by two products.
pub fn conjugate_with_care(
    s: &[u32],
    n: u8,
    count: u32,
    a: GroupElementId,
    b: GroupElementId,
) -> Result<GroupElementId, Refusal>
    ensures { result ≡ conjugate_in s.now n count a.0 b.0 }
{
    let c = compose_with_care(&s[..], n, count, a, b)?;
    let i = inverse_in(s, n, count, a)?;
    compose_with_care(&s[..], n, count, c, i)
}

// The element of a generator, which stands in the identity's row; refuses 14 for a generator that is none.
pub fn generator_in(s: &[u32], n: u8, count: u32, g: GeneratorId) -> Result<GroupElementId, Refusal>
    ensures { result ≡ generator_in s.now n count g.0 }
{
    if n <= g.0 {
        return Err(Refusal::ArgumentOutside(0));
    }
    egg::inner::next(s, n, count, GroupElementId(0), g)
}
