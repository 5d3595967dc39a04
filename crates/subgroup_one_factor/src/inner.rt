// Products in an overgroup of one factor, whose handle is known to fit, and the letters by which some of them are steps.
ghost use Rattle.std.specs.Prelude.{◌≡◌, true, [], ◌∷◌, ◌<◌, ◌%◌, length};
ghost use Rattle.egg.specs.Factor.{fits_in, stretch};
ghost use Rattle.group_digits.specs.Digits.{composes};
ghost use Rattle.subgroup_one_factor.specs.Letters.{OneLetter, Letters};

use egg::{Factor, GeneratorId, GroupElementId, Refusal};

// Answers the product of two elements of the one factor.
fn factor_product(
    from: &[u32],
    f: Factor,
    a: GroupElementId,
    b: GroupElementId,
) -> Result<GroupElementId, Refusal>
    requires { fits_in (length from.now) f ≡ true }
    ensures { result ≡ composes from.now (f ∷ []) a.0 b.0 }
{
    let first = a.0 % f.elements;
    let second = b.0 % f.elements;
    factor_compose::inner::compose_elements(
        egg::inner::part(from, f),
        f.generators,
        f.elements,
        GroupElementId(first),
        GroupElementId(second),
    )
}

// One more than the letter by which a product with b is a step, where the word of b has one letter, and its cell nothing above
// that; else 0.
#[tactic(auto, using(crate::proofs::LetterLaws::no_letter, crate::proofs::LetterLaws::one_letter))]
fn step_letter(s: &[u32], n: u8, b: GroupElementId) -> u32
    ensures { OneLetter s.now n b.0 result }
{
    if egg::inner::word_length(s, n, b) != 1 {
        return 0;
    }
    let letter = egg::inner::hop(s, n, b);
    if 8 <= letter {
        return 0;
    }
    if (n as u32) <= letter {
        return 0;
    }
    letter + 1
}

// Writes the same for each element of `gens` that the list has room for.
pub fn find_letters(s: &[u32], n: u8, count: u32, gens: &[u32], letters: &mut [u32])
    requires { 0 < count }
    ensures { Letters s.now n count gens.now letters.new }
{
    for i in 0..letters.len() {
        let by = egg::inner::get(gens, i);
        letters[i] = step_letter(s, n, GroupElementId(by % count));
    }
}

// Answers the product with b, by a step where its letter is known (`letter` is not 0), else by its word.
pub fn letter_product(
    from: &[u32],
    f: Factor,
    a: GroupElementId,
    b: GroupElementId,
    letter: u32,
) -> Result<GroupElementId, Refusal>
    requires { (fits_in (length from.now) f ≡ true) × OneLetter (stretch from.now f) f.generators (b.0 % f.elements) letter }
    ensures { result ≡ composes from.now (f ∷ []) a.0 b.0 }
{
    if letter == 0 {
        return factor_product(from, f, a, b);
    }
    if f.elements <= a.0 {
        return factor_product(from, f, a, b);
    }
    egg::inner::next(
        egg::inner::part(from, f),
        f.generators,
        f.elements,
        a,
        GeneratorId((letter - 1) as u8),
    )
}
